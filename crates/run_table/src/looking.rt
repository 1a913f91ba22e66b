// What clients see through taps.
ghost use Rattle.std.specs.Prelude.{◌≡◌, ◌≤◌, Some, None, IfSome, IfNone, IfOk, OnOk, OnErr};
ghost use Rattle.dc_talk.specs.Acting.{IsCutShort, acting, noted_all};
ghost use Rattle.script_core.specs.Steps.{IsStep};
ghost use Rattle.script_core.specs.Taps.{state_shown, seen_through, looks, look_in};
ghost use Rattle.client_stub.specs.Playing.{IsLinkBehind, beside};
ghost use Rattle.run_table.specs.Taps.{taps_of, TakesWith};

use client_stub::Stub;
use dc_talk::{Deed, Door, Line, Log, NotedSeen, Seen, SharedState};
use ids_core::{NoMemory, ObjectId};
use script_core::{ClientStep, TapState};
use std::alloc::Global;

// The state of an object among those that are shown of these objects; none where it is none of them.
fn state_shown<'a>(
    objects: &[ObjectId],
    states: &'a [SharedState],
    object: &ObjectId,
) -> Option<&'a SharedState>
    ensures some { IfSome result (λ state. state_shown objects.now states.now object.now ≡ Some state.now) }
    ensures none { IfNone result (state_shown objects.now states.now object.now ≡ None) }
{
    'places: for place in 0..objects.len() {
        if objects[place] == *object {
            return states.get(place);
        }
    }
    None
}

// What a look through a tap sees of an object, where the tap has it.
fn seen_through(alloc: Global, tap: &TapState, object: &ObjectId) -> Result<Option<Seen>, NoMemory>
    ensures { IfOk result (λ seen. seen ≡ seen_through tap.now object.now) }
{
    let show = &tap.show;
    match state_shown(tap.objects.as_slice(), show.states.as_slice(), object) {
        Some(state) => Ok(Some(Seen {
            vector: show.vector,
            value: state.as_state().value(alloc)?,
        })),
        None => Ok(None),
    }
}

/// What a look through the tap of a centre sees of an object, where there is such a tap that has it.
pub fn seen_at(
    alloc: Global,
    taps: &[TapState],
    centre: u8,
    object: &ObjectId,
) -> Result<Option<Seen>, NoMemory>
    requires { 1 ≤ centre }
    ensures { IfOk result (λ seen. seen ≡ seen_through (taps_of taps.now centre) object.now) }
{
    match taps.get((centre - 1) as usize) {
        Some(tap) => seen_through(alloc, tap, object),
        None => Ok(None),
    }
}

/// Tells what a client sees of an object through the tap of a centre, where it sees something. Nothing changes where
/// memory is refused.
pub fn tell_seen(
    alloc: Global,
    client: u32,
    centre: u8,
    object: ObjectId,
    seen: Option<Seen>,
    log: &mut Log,
) -> Result<(), NoMemory>
    ensures ok { OnOk result (log.new ≡ noted_all log.old (looks client centre object seen)) }
    ensures err { OnErr result (log.new ≡ log.old) }
{
    match seen {
        Some(seen) => {
            let seen = NotedSeen::new(alloc, seen)?;
            log.push(Deed::Told(Line::Look {
                client,
                centre,
                object,
                seen,
            }))
        }
        None => Ok(()),
    }
}

// Tells what a client sees of an object through the tap of a centre, where it sees something. Nothing changes where memory
// is refused.
fn look(
    alloc: Global,
    taps: &[TapState],
    client: u32,
    centre: u8,
    object: ObjectId,
    log: &mut Log,
) -> Result<(), NoMemory>
    requires { 1 ≤ centre }
    ensures ok { OnOk result (log.new ≡ noted_all log.old (looks client centre object (seen_through (taps_of taps.now centre) object))) }
    ensures err { OnErr result (log.new ≡ log.old) }
{
    let seen = seen_at(alloc, taps, centre, &object)?;
    tell_seen(alloc, client, centre, object, seen, log)
}

/// The centre of the tap and the object of a look, where a step is one.
pub fn look_in(step: &ClientStep) -> Option<(u8, ObjectId)>
    ensures { result ≡ look_in step.now }
{
    match step {
        ClientStep::Look { centre, object } => Some((*centre, *object)),
        _ => None,
    }
}

/// Has a client take a step through a door to the centres, which it leaves at its place, or look through the taps of the
/// centres. An `Err` is want of memory: it may leave a part of the step in the client, in the log and at the centres.
pub(crate) fn take_step<D: Door>(
    alloc: Global,
    stub: &mut Stub,
    door: &mut D,
    taps: &[TapState],
    step: &ClientStep,
    log: &mut Log,
) -> Result<(), NoMemory>
    requires fits { IsStep (D.shown door.old).centres step.now }
    requires behind { IsLinkBehind (D.shown door.old) stub.old.client }
    ensures place { D.place door.new ≡ D.place door.old }
    ensures takes { OnOk result (TakesWith taps.now step.now (beside stub.old (D.shown door.old) log.old) (beside stub.new (D.shown door.new) log.new)) }
    ensures linked { IsLinkBehind (D.shown door.new) stub.new.client }
    ensures short { OnErr result (IsCutShort (acting (D.shown door.old) log.old) (acting (D.shown door.new) log.new)) }
{
    match look_in(step) {
        Some((centre, object)) => look(alloc, taps, stub.session().client(), centre, object, log),
        None => stub.step(alloc, door, step, log),
    }
}
