// Tallies.
use ids_core::{Name, NoMemory, OpId, Tags};
use samples::id;
use std::alloc::Global;
use std::test::Fail;
use tally_core::Tallies;

// The tags of the operation of client 1 under a number.
fn tags(alloc: Global, number: u64) -> Result<Tags, Fail> {
    match Tags::of(vec![in alloc; id(1, number, 0)]?) {
        Ok(tags) => Ok(tags),
        Err(_list) => Err(Fail::new("one identifier ascends")),
    }
}

fn no_tags(alloc: Global) -> Result<Tags, Fail> {
    match Tags::of(Vec::new(alloc)) {
        Ok(tags) => Ok(tags),
        Err(_list) => Err(Fail::new("no identifier ascends")),
    }
}

// A remove that has seen the add of number 1, and after it that add and the one of number 3.
fn fill(alloc: Global, tallies: &mut Tallies<u8>, name: &Name) -> Result<(), Fail> {
    tallies.change(name, &id(1, 2, 0), None, &tags(alloc, 1)?)?;
    tallies.change(name, &id(1, 1, 0), Some(7), &tags(alloc, 9)?)?;
    tallies.change(name, &id(1, 3, 0), Some(8), &tags(alloc, 9)?)?;
    Ok(())
}

// Whether these are what is kept of a name.
fn keeps(
    alloc: Global,
    tallies: &Tallies<u8>,
    name: &Name,
    want: &[(OpId, u8)],
) -> Result<bool, NoMemory> {
    Ok(tallies.kept(alloc, name)?.as_slice() == want)
}

// Whether this is the only add of a name that is live.
fn lives(alloc: Global, tallies: &Tallies<u8>, name: &Name, id: OpId) -> Result<bool, NoMemory> {
    Ok(tallies.live(alloc, name)?.as_slice() == [id].as_slice())
}

// How many names tallies have.
fn count(alloc: Global, tallies: &Tallies<u8>) -> Result<usize, NoMemory> {
    Ok(tallies.names(alloc)?.len())
}

// Whether in a copy of tallies the add of number 3 is live alone, with what it keeps, and the name is the only one.
fn is_copied(alloc: Global, tallies: &Tallies<u8>, name: &Name) -> Result<bool, NoMemory> {
    let copy = tallies.copy()?;
    let live = lives(alloc, &copy, name, id(1, 3, 0))?;
    let kept = keeps(alloc, &copy, name, &[(id(1, 3, 0), 8)])?;
    let names = count(alloc, &copy)?;
    Ok(live && kept && names == 1)
}

// Whether the copy of tallies with that remove and those adds is so.
fn is_filled(alloc: Global, name: &Name) -> Result<bool, Fail> {
    let mut tallies = Tallies::new(alloc);
    fill(alloc, &mut tallies, name)?;
    Ok(is_copied(alloc, &tallies, name)?)
}

// Adds a word under a number of client 1, over nothing.
fn add(
    alloc: Global,
    tallies: &mut Tallies<u8>,
    name: &Name,
    number: u64,
    keeps: u8,
) -> Result<(), Fail> {
    Ok(tallies.change(name, &id(1, number, 0), Some(keeps), &no_tags(alloc)?)?)
}

// Whether a copy keeps its add where the tallies lose theirs, and the other way round.
fn are_apart(alloc: Global, name: &Name) -> Result<bool, Fail> {
    let mut tallies = Tallies::<u8>::new(alloc);
    add(alloc, &mut tallies, name, 1, 7)?;
    let mut copy = tallies.copy()?;
    tallies.change(name, &id(1, 2, 0), None, &tags(alloc, 1)?)?;
    let kept = keeps(alloc, &copy, name, &[(id(1, 1, 0), 7)])?;
    add(alloc, &mut copy, name, 3, 8)?;
    let both = keeps(alloc, &copy, name, &[(id(1, 1, 0), 7), (id(1, 3, 0), 8)])?;
    let names = count(alloc, &tallies)?;
    Ok(kept && both && names == 0)
}

#[test]
fn a_copy_stays_as_it_was(rt: HostRuntime) -> Result<(), Fail> {
    assert!(rt; are_apart(rt.alloc(), &Name::read(b"a")?)?);
    Ok(())
}

#[test]
fn a_remove_may_come_before_its_add(rt: HostRuntime) -> Result<(), Fail> {
    assert!(rt; is_filled(rt.alloc(), &Name::read(b"a")?)?);
    Ok(())
}
