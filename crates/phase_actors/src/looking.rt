// What clients see through the readers of a phase's taps.
ghost use Rattle.std.specs.Prelude.{◌≡◌, ◌≤◌, ◌<◌, List, length, slice_get, None, IfSome, IfNone, IfOk, OnOk};
ghost use Rattle.tx_core.specs.declared.state.State.{State as StateView};
ghost use Rattle.script_core.specs.Steps.{IsStep};
ghost use Rattle.script_core.specs.Taps.{state_shown};
ghost use Rattle.client_stub.specs.Playing.{IsLinkBehind, beside};
ghost use Rattle.run_table.specs.Taps.{taps_of};
ghost use Rattle.phase_actors.specs.Taps.{shows_read, IsReader, AreReaders, HasRead, HaveRead, SeesOf, HasLooked, TakesReading};

use client_stub::Stub;
use dc_talk::{Door, Log, Seen};
use ids_core::{NoMemory, ObjectId};
use read_tap::TapReader;
use run_table::{look_in, seen_at, tell_seen};
use script_core::{ClientStep, TapState};
use std::alloc::Global;

// The place of an object among those of a tap, where it is one of them.
fn place_of(objects: &[ObjectId], object: &ObjectId) -> Option<usize>
    ensures some { IfSome result (λ place. (place < length objects.now) × ((states : List StateView) → state_shown objects.now states object.now ≡ slice_get states place)) }
    ensures none { IfNone result ((states : List StateView) → state_shown objects.now states object.now ≡ None) }
{
    'places: for place in 0..objects.len() {
        if objects[place] == *object {
            return Some(place);
        }
    }
    None
}

// What a reader of a tap sees of an object, where the tap has it: it reads the last show that is published by then.
fn seen_by(
    alloc: Global,
    tap: &TapState,
    reader: &mut TapReader,
    object: &ObjectId,
) -> Result<Option<Seen>, NoMemory>
    requires { IsReader tap.now reader.old }
    ensures read { HasRead reader.old reader.new }
    ensures seen { IfOk result (SeesOf tap.now reader.new.shows object.now) }
{
    match place_of(tap.objects.as_slice(), object) {
        Some(place) => {
            let (vector, value) = reader.look(alloc, place)?;
            Ok(Some(Seen { vector, value }))
        }
        None => Ok(None),
    }
}

// What a client sees of an object through the tap of a centre: what its reader sees, or what the tap showed before the
// phase where there is no reader of it.
fn seen_now(
    alloc: Global,
    taps: &[TapState],
    readers: &mut Vec<TapReader>,
    centre: u8,
    object: &ObjectId,
) -> Result<Option<Seen>, NoMemory>
    requires centre { 1 ≤ centre }
    requires readers { AreReaders taps.now readers.old.items }
    ensures read { HaveRead readers.old.items readers.new.items }
    ensures seen { IfOk result (SeesOf (taps_of taps.now centre) (shows_read taps.now readers.new.items centre) object.now) }
{
    let place = (centre - 1) as usize;
    if place >= readers.len() {
        return seen_at(alloc, taps, centre, object);
    }
    seen_by(alloc, &taps[place], &mut readers[place], object)
}

// A client looks at an object through the tap of a centre, and tells what it sees.
fn look(
    alloc: Global,
    taps: &[TapState],
    readers: &mut Vec<TapReader>,
    client: u32,
    centre: u8,
    object: ObjectId,
    log: &mut Log,
) -> Result<(), NoMemory>
    requires centre { 1 ≤ centre }
    requires readers { AreReaders taps.now readers.old.items }
    ensures read { HaveRead readers.old.items readers.new.items }
    ensures looked { OnOk result (HasLooked taps.now readers.new.items client centre object log.old log.new) }
{
    let seen = seen_now(alloc, taps, readers, centre, &object)?;
    tell_seen(alloc, client, centre, object, seen, log)
}

/// Has a client take a step through a door to the centres, which it leaves at its place, or look through the taps of the
/// centres by their readers. After an `Err`, want of memory, a part of the step may be done.
pub(crate) fn take_step<D: Door>(
    alloc: Global,
    taps: &[TapState],
    readers: &mut Vec<TapReader>,
    client: u32,
    stub: &mut Stub,
    door: &mut D,
    step: &ClientStep,
    log: &mut Log,
) -> Result<(), NoMemory>
    requires fits { IsStep (D.shown door.old).centres step.now }
    requires behind { IsLinkBehind (D.shown door.old) stub.old.client }
    requires own { stub.old.client.client ≡ client }
    requires readers { AreReaders taps.now readers.old.items }
    ensures place { D.place door.new ≡ D.place door.old }
    ensures linked { IsLinkBehind (D.shown door.new) stub.new.client }
    ensures read { HaveRead readers.old.items readers.new.items }
    ensures takes { OnOk result (TakesReading taps.now readers.new.items client step.now (beside stub.old (D.shown door.old) log.old) (beside stub.new (D.shown door.new) log.new)) }
{
    match look_in(step) {
        Some((centre, object)) => look(alloc, taps, readers, client, centre, object, log),
        None => stub.step(alloc, door, step, log),
    }
}
