// Registers.
use ids_core::{Kind, Mark, Name, NoMemory, fold_all};
use obj_register::{RegisterOp, RegisterState};
use samples::{id, mark};
use std::alloc::Global;
use std::test::Fail;

// The word of a register after operations.
fn read(alloc: Global, ops: &[(Mark, RegisterOp)]) -> Result<Option<Name>, NoMemory> {
    let state = fold_all::<RegisterState>(alloc, ops)?;
    Ok(RegisterState::copy(&state)?.value())
}

// Whether the write with the second mark wins over that with the first, whichever comes first.
fn wins(alloc: Global, below: &Mark, above: &Mark) -> Result<bool, Fail> {
    let high = Name::read(b"high")?;
    let low = RegisterOp {
        word: Name::read(b"low")?,
    };
    let write = RegisterOp { word: high };
    let up = read(alloc, &[(*below, low), (*above, write)])?;
    let down = read(alloc, &[(*above, write), (*below, low)])?;
    Ok(up == Some(high) && down == Some(high))
}

#[test]
fn the_greatest_mark_wins_in_either_order(rt: HostRuntime) -> Result<(), Fail> {
    assert!(rt; read(rt.alloc(), &[])?.is_none());
    for (below, above) in [
        (mark(1, id(9, 9, 9)), mark(2, id(1, 1, 0))),
        (mark(2, id(1, 9, 9)), mark(2, id(2, 1, 0))),
        (mark(2, id(2, 1, 9)), mark(2, id(2, 2, 0))),
        (mark(2, id(2, 2, 1)), mark(2, id(2, 2, 3))),
    ] {
        assert!(rt; wins(rt.alloc(), &below, &above)?, "at {}", above.rank);
    }
    Ok(())
}
