// Maps.
use ids_core::{Kind, Name, NoMemory, Tags, fold_all};
use obj_map::{MapOp, MapState};
use samples::{id, mark};
use std::alloc::Global;
use std::test::Fail;

// Takes in the put of a word under a key, or an erase, of a client who has seen that of another.
fn take(
    alloc: Global,
    state: &mut MapState,
    key: Name,
    word: Option<Name>,
    client: u32,
    rank: u64,
    sees: u32,
) -> Result<(), Fail> {
    let Ok(over) = Tags::of(vec![in alloc; id(sees, 1, 0)]?) else {
        return Err(Fail::new("one identifier ascends"));
    };
    let op = MapOp { key, word, over };
    Ok(MapState::fold(state, &mark(rank, id(client, 1, 0)), &op)?)
}

// Three puts at one key, an erase that has seen the last of them, and a put at another key.
fn fill(alloc: Global, state: &mut MapState, a: Name, b: Name) -> Result<(), Fail> {
    take(alloc, state, b, Some(b), 1, 2, 9)?;
    take(alloc, state, b, Some(a), 2, 1, 9)?;
    take(alloc, state, b, Some(a), 3, 3, 9)?;
    take(alloc, state, b, None, 4, 4, 3)?;
    take(alloc, state, a, Some(a), 5, 1, 9)
}

// How many tags a map has of a key.
fn tags_of(alloc: Global, state: &MapState, key: &Name) -> Result<usize, NoMemory> {
    Ok(state.tags_of(alloc, key)?.as_slice().len())
}

// Whether a map has these keys, each with its word.
fn has(alloc: Global, state: &MapState, want: &[(Name, Name)]) -> Result<bool, NoMemory> {
    Ok(state.value(alloc)?.as_slice() == want)
}

// Whether the copy of a map has each key under itself, and two tags of the second.
fn is_copied(alloc: Global, state: &MapState, a: Name, b: Name) -> Result<bool, NoMemory> {
    let copy = MapState::copy(state)?;
    let tags = tags_of(alloc, &copy, &b)?;
    let has = has(alloc, &copy, &[(a, a), (b, b)])?;
    Ok(has && tags == 2)
}

// Whether the copy of a map with those puts and that erase is so.
fn is_filled(alloc: Global, a: Name, b: Name) -> Result<bool, Fail> {
    let mut state = fold_all::<MapState>(alloc, &[])?;
    fill(alloc, &mut state, a, b)?;
    Ok(is_copied(alloc, &state, a, b)?)
}

#[test]
fn the_greatest_live_put_wins(rt: HostRuntime) -> Result<(), Fail> {
    assert!(rt; is_filled(rt.alloc(), Name::read(b"a")?, Name::read(b"b")?)?);
    Ok(())
}
