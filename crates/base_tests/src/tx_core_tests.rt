// Transactions, their checks, and the states of objects.
use ids_core::{Dot, Name, NoMemory, ObjectId, OpId, Sort, Tags};
use samples::{counter, id, inc, inc_tx, mark, pair};
use std::alloc::Global;
use std::test::Fail;
use tx_core::{NamePairs, Names, Op, Record, State, Tx, TxFault, Update, Updates, Value};
use vv_core::Stamp;

// The identifier of an update of the first transaction of client 1.
fn place_id(place: u16) -> OpId {
    id(1, 1, place)
}

// Takes in the operation at a place of that transaction, whose rank is 1.
fn take(state: &mut State, place: u16, op: Op) -> Result<(), NoMemory> {
    state.fold(&mark(1, place_id(place)), &op)
}

// The tags of the updates from one place to before another.
fn tags(alloc: Global, from: u16, to: u16) -> Result<Tags, Fail> {
    let mut list = Vec::new(alloc);
    for place in from..to {
        list.push(place_id(place))?;
    }
    match Tags::of(list) {
        Ok(tags) => Ok(tags),
        Err(_list) => Err(Fail::new("the places ascend")),
    }
}

// Takes in an add of each word, after a remove that has seen the first of the adds.
fn fill_set(alloc: Global, state: &mut State, a: Name, b: Name) -> Result<(), Fail> {
    let over = tags(alloc, 0, 1)?;
    take(state, 2, Op::Remove { word: a, over })?;
    let over = tags(alloc, 0, 0)?;
    take(state, 0, Op::Add { word: a, over })?;
    let over = tags(alloc, 0, 0)?;
    Ok(take(state, 1, Op::Add { word: b, over })?)
}

// Whether a value is these words.
fn is_words(value: &Value, want: &Names) -> Result<bool, NoMemory> {
    match value {
        Value::Words(words) => Ok(words.copy()?.as_slice() == want.as_slice()),
        _ => Ok(false),
    }
}

// Whether a set is read as this word alone.
fn has_alone(alloc: Global, state: &State, word: Name) -> Result<bool, Fail> {
    let want = Names::from_vec(alloc, vec![in alloc; word]?)?;
    let value = state.value(alloc)?;
    Ok(is_words(&value, &want)?)
}

// How many tags a state has of a word.
fn tag_count(alloc: Global, state: &State, word: &Name) -> Result<usize, NoMemory> {
    Ok(state.tags_of(alloc, word)?.as_slice().len())
}

// Whether the copy of a state is a set of this word alone, with one tag.
fn is_copied_set(alloc: Global, state: &State, word: Name) -> Result<bool, Fail> {
    let copy = state.copy()?;
    let tags = tag_count(alloc, &copy, &word)?;
    let is_read = has_alone(alloc, &copy, word)?;
    let is_set = copy.sort() == Sort::Set;
    Ok(is_read && is_set && tags == 1)
}

// Whether it is so of the second word of a set that was filled so.
fn has_the_second(alloc: Global, a: Name, b: Name) -> Result<bool, Fail> {
    let mut state = State::empty(alloc, Sort::Set)?;
    fill_set(alloc, &mut state, a, b)?;
    is_copied_set(alloc, &state, b)
}

// Whether a copy of pairs has them.
fn are_pairs(pairs: &NamePairs, want: &[(Name, Name)]) -> Result<bool, NoMemory> {
    Ok(pairs.copy()?.as_slice() == want)
}

#[test]
fn a_set_has_what_is_live(rt: HostRuntime) -> Result<(), Fail> {
    let (a, b) = (Name::read(b"a")?, Name::read(b"b")?);
    assert!(rt; has_the_second(rt.alloc(), a, b)?);
    let pairs = NamePairs::from_vec(rt.alloc(), vec![in rt.alloc(); (a, b)]?)?;
    assert!(rt; are_pairs(&pairs, &[(a, b)])?);
    Ok(())
}

// Whether updates are so many, each of the object.
fn are_of(updates: &Updates, object: &ObjectId, count: usize) -> bool {
    let are = updates
        .as_slice()
        .iter()
        .all(|update| update.object == *object);
    are && updates.len() == count
}

// The transaction of client 1 that adds deltas to a counter.
fn tx_of(alloc: Global, object: &ObjectId, deltas: &[i64]) -> Result<Tx, NoMemory> {
    let client = 1;
    let number = 1;
    inc_tx(alloc, Dot { client, number }, 1, pair(0, 0), object, deltas)
}

// Whether the copy of a transaction has two updates of the object.
fn has_two(tx: &Tx, object: &ObjectId) -> Result<bool, NoMemory> {
    let copy = tx.copy()?;
    Ok(are_of(&copy.updates, object, 2))
}

// Whether the copy of a record has the stamp, and two updates of the object.
fn is_copied(alloc: Global, stamp: Stamp, object: &ObjectId) -> Result<bool, NoMemory> {
    let tx = tx_of(alloc, object, &[-7, 9])?;
    let deps = pair(0, 0);
    let record = Record { stamp, deps, tx };
    let copy = record.copy()?;
    let has_two = has_two(&copy.tx, object)?;
    Ok(has_two && copy.stamp == stamp)
}

#[test]
fn records_are_copied_whole(rt: HostRuntime) -> Result<(), Fail> {
    let stamp = Stamp { centre: 1, seq: 4 };
    assert!(rt; is_copied(rt.alloc(), stamp, &counter("a")?)?);
    Ok(())
}

// How many updates a shared list has after one more, and how many a copy has that was made before.
fn counts_apart(alloc: Global, object: &ObjectId) -> Result<(usize, usize), NoMemory> {
    let tx = tx_of(alloc, object, &[1, 2])?;
    let Ok(mut updates) = tx.updates.copy()?.share() else {
        return Err(NoMemory);
    };
    let copy = updates.copy()?;
    updates.push(inc(object, 3))?;
    Ok((updates.len(), copy.len()))
}

#[test]
fn one_more_update_leaves_the_copies_as_they_are(rt: HostRuntime) -> Result<(), Fail> {
    assert!(rt; counts_apart(rt.alloc(), &counter("a")?)? == (3, 2));
    Ok(())
}

const LARGEST: i64 = 1_000_000_000_000;

// The first fault, for two centres, of a transaction of a client with a rank and deltas, over so many
// records of centre 2.
fn fault_of(
    alloc: Global,
    client: u32,
    rank: u64,
    seq: u32,
    deltas: &[i64],
) -> Result<Option<TxFault>, Fail> {
    let number = 1 << 62;
    let dot = Dot { client, number };
    let tx = inc_tx(alloc, dot, rank, pair(0, seq), &counter("a")?, deltas)?;
    Ok(tx.check(2).err())
}

#[test]
fn the_first_fault_is_named(rt: HostRuntime) -> Result<(), Fail> {
    let alloc = rt.alloc();
    let at_the_limits = fault_of(alloc, 1_024, 1 << 62, 1_000_000, &[LARGEST, -LARGEST])?;
    assert!(rt; at_the_limits.is_none());
    let deltas = [1, -LARGEST - 1, LARGEST + 1];
    let fault = fault_of(alloc, 1_025, 0, 1_000_001, &deltas)?;
    assert!(rt; matches!(fault, Some(TxFault::BadDot)));
    let fault = fault_of(alloc, 1, 0, 1_000_001, &deltas)?;
    assert!(rt; matches!(fault, Some(TxFault::BadRank)));
    let fault = fault_of(alloc, 1, 1, 1_000_001, &deltas)?;
    assert!(rt; matches!(fault, Some(TxFault::BadSnap { centre: 2 })));
    let fault = fault_of(alloc, 1, 1, 0, &deltas)?;
    assert!(rt; matches!(fault, Some(TxFault::DeltaTooLarge { place: 1 })));
    Ok(())
}

#[test]
fn updates_are_counted(rt: HostRuntime) -> Result<(), Fail> {
    let alloc = rt.alloc();
    assert!(rt; fault_of(alloc, 1, 1, 0, &[1; 256])?.is_none());
    let fault = fault_of(alloc, 1, 1, 0, &[1; 257])?;
    assert!(rt; matches!(fault, Some(TxFault::TooManyUpdates { count: 257 })));
    let fault = fault_of(alloc, 1, 1, 0, &[])?;
    assert!(rt; matches!(fault, Some(TxFault::NoUpdates)));
    Ok(())
}

// The first fault of a transaction whose one update is this operation on a set, for two centres or for three.
fn fault_of_op(alloc: Global, name: Name, op: Op, wide: bool) -> Result<Option<TxFault>, NoMemory> {
    let sort = Sort::Set;
    let object = ObjectId { sort, name };
    let mut tx = tx_of(alloc, &object, &[])?;
    tx.updates.push(Update { object, op })?;
    if wide {
        return Ok(tx.check(3).err());
    }
    Ok(tx.check(2).err())
}

#[test]
fn an_operation_that_does_not_fit_is_named(rt: HostRuntime) -> Result<(), Fail> {
    let word = Name::read(b"w")?;
    let over = tags(rt.alloc(), 0, 4_097)?;
    let fault = fault_of_op(rt.alloc(), word, Op::Add { word, over }, false)?;
    assert!(rt;
        matches!(
            fault,
            Some(TxFault::TooManyTags {
                place: 0,
                count: 4_097
            })
        )
    );
    let fault = fault_of_op(rt.alloc(), word, Op::Write { word }, false)?;
    assert!(rt; matches!(fault, Some(TxFault::WrongKind { place: 0 })));
    let fault = fault_of_op(rt.alloc(), word, Op::Write { word }, true)?;
    assert!(rt; matches!(fault, Some(TxFault::WrongWidth { width: 2 })));
    Ok(())
}

// The first fault of a transaction whose one update adds a word over this identifier.
fn fault_over(alloc: Global, word: Name, tag: OpId) -> Result<Option<TxFault>, Fail> {
    let Ok(over) = Tags::of(vec![in alloc; tag]?) else {
        return Err(Fail::new("one identifier ascends"));
    };
    Ok(fault_of_op(alloc, word, Op::Add { word, over }, false)?)
}

#[test]
fn an_identifier_out_of_range_is_named(rt: HostRuntime) -> Result<(), Fail> {
    let word = Name::read(b"w")?;
    assert!(rt; fault_over(rt.alloc(), word, id(1, 1, 0))?.is_none());
    assert!(rt; fault_over(rt.alloc(), word, id(1_024, 1 << 62, 255))?.is_none());
    for tag in [
        id(0, 1, 0),
        id(1_025, 1, 0),
        id(1, 0, 0),
        id(1, (1 << 62) + 1, 0),
        id(1, 1, 256),
    ] {
        let fault = fault_over(rt.alloc(), word, tag)?;
        assert!(rt; matches!(fault, Some(TxFault::BadTag { place: 0 })));
    }
    Ok(())
}
