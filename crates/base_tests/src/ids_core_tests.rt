// Names, identifiers, marks, objects and tags.
use ids_core::{BadName, Mark, Name, NoMemory, ObjectId, OpId, Sort, Tags, id_order, mark_order};
use samples::{id, mark};
use std::hash::{DefaultHasher, Hash, Hasher};
use std::test::Fail;

// Whether a text is read as a name that comes before the one that another text is read as.
fn goes_before(low: &str, high: &str) -> Result<bool, BadName> {
    let first = Name::read(low.as_bytes())?;
    let second = Name::read(high.as_bytes())?;
    let is_read = first.as_slice() == low.as_bytes();
    Ok(is_read && first.cmp(&second).is_lt() && second.cmp(&first).is_gt())
}

// Whether a text is read as no name.
fn is_no_name(text: &str) -> bool {
    Name::read(text.as_bytes()).is_err()
}

#[test]
fn names_are_read_and_go_by_their_bytes(rt: HostRuntime) -> Result<(), Fail> {
    assert!(rt; goes_before("0", "_")?);
    assert!(rt; goes_before("_", "a")?);
    assert!(rt; goes_before("a", "a0")?);
    assert!(rt; goes_before("a0", "aa")?);
    assert!(rt; goes_before("abcdefghijklmnopqrstuvwxyz_01234", "z9_")?);
    assert!(rt; is_no_name(""));
    assert!(rt; is_no_name("A"));
    assert!(rt; is_no_name("a-b"));
    assert!(rt; is_no_name("a b"));
    assert!(rt; is_no_name("abcdefghijklmnopqrstuvwxyz_012345"));
    Ok(())
}

// The hash of an object.
fn hash_of(object: &ObjectId) -> u64 {
    let mut state = DefaultHasher::new();
    object.hash(&mut state);
    state.finish()
}

#[test]
fn objects_go_by_kind_then_name(rt: HostRuntime) -> Result<(), Fail> {
    let (a, b) = (Name::read(b"a")?, Name::read(b"b")?);
    let low = ObjectId {
        sort: Sort::Counter,
        name: b,
    };
    let high = ObjectId {
        sort: Sort::Map,
        name: a,
    };
    assert!(rt; low < high && low.cmp(&low).is_eq());
    assert!(rt; hash_of(&low) == hash_of(&low) && hash_of(&low) != hash_of(&high));
    Ok(())
}

#[test]
fn errors_say_what_is_wrong(rt: HostRuntime) -> Result<(), Fail> {
    let text = format!(in rt.alloc(); "{NoMemory}, {BadName}")?;
    assert_eq!(rt;
        text.as_str(),
        "memory ran out, no name: 1 to 32 bytes out of a to z, 0 to 9 and _"
    );
    Ok(())
}

#[test]
fn objects_differ_by_kind_and_name(rt: HostRuntime) -> Result<(), Fail> {
    let name = Name::read(b"a")?;
    let sort = Sort::Set;
    let first = ObjectId { sort, name };
    let sort = Sort::Map;
    assert!(rt; first != ObjectId { sort, name } && first == first);
    let name = Name::read(b"ab")?;
    assert!(rt;
        first
            != ObjectId {
                sort: first.sort,
                name
            }
    );
    Ok(())
}

// Whether one mark comes before another, and its identifier where the ranks are the same.
fn is_below(low: &Mark, high: &Mark) -> bool {
    let there = mark_order(low, high).is_lt() && mark_order(high, low).is_gt();
    there && (low.rank < high.rank || id_order(&low.id, &high.id).is_lt())
}

#[test]
fn marks_go_by_rank_then_client_then_number_then_place(rt: HostRuntime) {
    assert!(rt; is_below(&mark(1, id(9, 9, 9)), &mark(2, id(1, 9, 9))));
    assert!(rt; is_below(&mark(2, id(1, 9, 9)), &mark(2, id(2, 1, 9))));
    assert!(rt; is_below(&mark(2, id(2, 1, 9)), &mark(2, id(2, 2, 1))));
    assert!(rt; is_below(&mark(2, id(2, 2, 1)), &mark(2, id(2, 2, 3))));
}

// How many tags the identifiers are, or none where they do not ascend.
fn tag_count(list: Vec<OpId>) -> Result<Option<usize>, Fail> {
    match Tags::of(list) {
        Ok(tags) => Ok(Some(tags.copy()?.as_slice().len())),
        Err(_list) => Ok(None),
    }
}

#[test]
fn tags_ascend(rt: HostRuntime) -> Result<(), Fail> {
    for (second, count) in [
        (id(1, 2, 1), Some(2)),
        (id(1, 2, 0), None),
        (id(1, 1, 9), None),
    ] {
        let list = vec![in rt.alloc(); id(1, 2, 0), second]?;
        assert!(rt; tag_count(list)? == count);
    }
    Ok(())
}
