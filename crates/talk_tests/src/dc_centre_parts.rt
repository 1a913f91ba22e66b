// A centre that is taken apart, and one that is made of its parts.
use crate::records::tx_of;
use centre_parts::{AppliedParts, CentreParts, Condition};
use dc_centre::{Centre, Refusal};
use dc_talk::{Ask, Say, SharedTx};
use ids_core::NoMemory;
use list_core::List;
use samples::{pair, single};
use std::alloc::Global;
use std::process::Abort;
use std::test::Fail;

// Has a centre take one ask.
fn ask(alloc: Global, centre: &mut Centre, ask: Ask) -> Result<(), NoMemory> {
    centre.step(alloc, &ask)?;
    Ok(())
}

// Has a centre stamp the commit of client 1 with this number.
fn commit(alloc: Global, centre: &mut Centre, number: u64) -> Result<(), Fail> {
    let tx = SharedTx::new(alloc, tx_of(alloc, number)?)?;
    Ok(ask(alloc, centre, Ask::Commit { tx })?)
}

// Has centre 1 of two stamp two commits, fold the first, let it go, and stop.
fn prepare(alloc: Global, centre: &mut Centre) -> Result<(), Fail> {
    commit(alloc, centre, 1)?;
    commit(alloc, centre, 2)?;
    let vector = pair(1, 0);
    ask(alloc, centre, Ask::Learn { from: 2, vector })?;
    ask(alloc, centre, Ask::Prune)?;
    ask(alloc, centre, Ask::Prune)?;
    Ok(ask(alloc, centre, Ask::Stop)?)
}

// Centre 1 of two, which did so.
fn pruned(alloc: Global) -> Result<Centre, Fail> {
    let mut centre = Centre::new(alloc, 1, 2, 2, 10)?;
    prepare(alloc, &mut centre)?;
    Ok(centre)
}

// Whether this is what that centre keeps of the records that it applied.
fn are_applied(applied: &AppliedParts) -> bool {
    applied.vector == pair(2, 0)
        && applied.top == 2
        && applied.notes.len() == 1
        && applied.point.vector == pair(1, 0)
        && applied.point.folded == 1
        && applied.rest.len() == 1
}

// Whether these are the parts of that centre, but for what is stopped.
fn are_pruned(parts: &CentreParts) -> bool {
    are_applied(&parts.applied)
        && parts.mark == pair(1, 0)
        && parts.trimmed == pair(1, 0)
        && parts.rows.len() == 2
        && parts.outbox.len() == 8
}

// Whether a centre has those parts.
fn is_pruned(alloc: Global, centre: &Centre) -> Result<bool, NoMemory> {
    let parts = centre.parts(alloc)?;
    Ok(are_pruned(&parts))
}

// The centre that is made of the parts of one.
fn remade(alloc: Global, centre: &Centre) -> Result<Centre, Fail> {
    match Centre::of_parts(alloc, centre.parts(alloc)?) {
        Ok(again) => Ok(again),
        Err(Refusal::Broken { .. }) => Err(Fail::new("the parts of a centre are refused")),
        Err(Refusal::OutOfMemory) => Err(Fail::from(NoMemory)),
    }
}

// That centre, taken apart and made again.
fn again(alloc: Global) -> Result<Centre, Fail> {
    let centre = pruned(alloc)?;
    remade(alloc, &centre)
}

// Whether a centre is down.
fn is_down(alloc: Global, centre: &mut Centre) -> Result<bool, NoMemory> {
    let says = centre.step(alloc, &Ask::Report)?;
    Ok(matches!(says.0, Say::Down))
}

// Has a centre that was made again be stopped, and then go on from where it was.
fn go_on(rt: &impl Abort, alloc: Global, centre: &mut Centre) -> Result<(), Fail> {
    assert!(rt; is_down(alloc, centre)?);
    ask(alloc, centre, Ask::Start)?;
    assert!(rt; !is_down(alloc, centre)?);
    assert!(rt; is_pruned(alloc, centre)?);
    commit(alloc, centre, 3)?;
    assert!(rt; centre.vector() == pair(3, 0));
    Ok(())
}

#[test]
fn a_centre_is_made_of_its_parts(rt: HostRuntime) -> Result<(), Fail> {
    let mut centre = again(rt.alloc())?;
    go_on(&rt, rt.alloc(), &mut centre)
}

// Has parts break one of these conditions, and no other.
fn break_at(alloc: Global, parts: &mut CentreParts, condition: Condition) {
    match condition {
        Condition::Centre => parts.settings.me = 3,
        Condition::Known => parts.settings.k = 0,
        Condition::Limit => parts.settings.limit = 1_000_001,
        Condition::Widths => parts.mark = single(1),
        Condition::Rows => parts.rows = List::new(alloc),
        Condition::Outbox => parts.outbox = List::new(alloc),
        Condition::Room => parts.settings.limit = 1,
        Condition::MarkOverBase => parts.mark = pair(0, 0),
        Condition::StableOverMark => parts.mark = pair(2, 0),
        Condition::KnownOverTrimmed => parts.trimmed = pair(2, 0),
        _ => parts.applied.notes = List::new(alloc),
    }
}

// Whether no centre is made of the parts of this one, once they break the condition, for that cause.
fn refuses(alloc: Global, centre: &Centre, condition: Condition) -> Result<bool, NoMemory> {
    let mut parts = centre.parts(alloc)?;
    break_at(alloc, &mut parts, condition);
    match Centre::of_parts(alloc, parts) {
        Err(Refusal::Broken { condition: named }) => Ok(named == condition),
        Err(Refusal::OutOfMemory) => Err(NoMemory),
        Ok(_) => Ok(false),
    }
}

// The conditions that are broken, one after the other.
const CONDITIONS: [Condition; 11] = [
    Condition::Centre,
    Condition::Known,
    Condition::Limit,
    Condition::Widths,
    Condition::Rows,
    Condition::Outbox,
    Condition::Room,
    Condition::MarkOverBase,
    Condition::StableOverMark,
    Condition::KnownOverTrimmed,
    Condition::RestNumbers,
];

#[test]
fn broken_parts_make_no_centre(rt: HostRuntime) -> Result<(), Fail> {
    let centre = pruned(rt.alloc())?;
    for condition in CONDITIONS {
        assert!(rt; refuses(rt.alloc(), &centre, condition)?);
    }
    Ok(())
}
