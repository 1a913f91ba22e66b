// Sets.
use ids_core::{Kind, Name, NoMemory, Tags, fold_all};
use obj_set::{SetOp, SetState};
use samples::{id, mark};
use std::alloc::Global;
use std::test::Fail;

// Takes in what a client does to a word, who has seen what another client did to it.
fn take(
    alloc: Global,
    state: &mut SetState,
    adds: bool,
    word: Name,
    client: u32,
    sees: u32,
) -> Result<(), Fail> {
    let Ok(over) = Tags::of(vec![in alloc; id(sees, 1, 0)]?) else {
        return Err(Fail::new("one identifier ascends"));
    };
    let op = SetOp { adds, word, over };
    Ok(SetState::fold(state, &mark(1, id(client, 1, 0)), &op)?)
}

// Takes these operations in.
fn take_all(
    alloc: Global,
    state: &mut SetState,
    word: Name,
    ops: &[(bool, u32, u32)],
) -> Result<(), Fail> {
    for (adds, client, sees) in ops {
        take(alloc, state, *adds, word, *client, *sees)?;
    }
    Ok(())
}

// How many words the copy of a set has, and how many tags one of them.
fn counts_of(alloc: Global, state: &SetState, word: &Name) -> Result<(usize, usize), NoMemory> {
    let copy = SetState::copy(state)?;
    let words = copy.value(alloc)?.len();
    let tags = copy.tags_of(alloc, word)?.as_slice().len();
    Ok((words, tags))
}

// The same of a set with these operations.
fn counts(alloc: Global, word: Name, ops: &[(bool, u32, u32)]) -> Result<(usize, usize), Fail> {
    let mut state = fold_all::<SetState>(alloc, &[])?;
    take_all(alloc, &mut state, word, ops)?;
    Ok(counts_of(alloc, &state, &word)?)
}

#[test]
fn an_add_wins_over_a_remove_that_has_not_seen_it(rt: HostRuntime) -> Result<(), Fail> {
    let word = Name::read(b"b")?;
    let seen = [(false, 2, 1), (true, 1, 9)];
    assert!(rt; counts(rt.alloc(), word, &seen)? == (0, 0));
    let unseen = [(false, 2, 1), (true, 1, 9), (true, 3, 9), (false, 4, 1)];
    assert!(rt; counts(rt.alloc(), word, &unseen)? == (1, 1));
    Ok(())
}
