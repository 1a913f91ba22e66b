// What the operator feeds taps with in a phase, by their feeders.
ghost use Rattle.std.specs.Prelude.{◌≡◌, List, OnOk};
ghost use Rattle.dc_talk.specs.Acting.{acting};
ghost use Rattle.dc_talk.specs.Doors.{IsBehind};
ghost use Rattle.dc_worker.specs.Work.{AddsSuch};
ghost use Rattle.script_core.specs.declared.taps.TapState.{TapState};
ghost use Rattle.script_core.specs.Steps.{IsOperatorStep};
ghost use Rattle.phase_actors.specs.Taps.{AreFeeders, FeedsBy, FeedsAmong, TakesOrder};

use crate::scene::Scene;
use client_stub::operate;
use dc_talk::{Deed, Door, Line, Log};
use ids_core::NoMemory;
use read_tap::TapFeeder;
use run_table::feed_in;
use script_core::OperatorStep;
use std::alloc::Global;
use std::sync::Wait;

// Feeds the tap of a centre behind a door by its feeder, and tells how that ended. A tap without objects is not fed.
fn feed_by<D: Door, R: Wait>(
    alloc: Global,
    door: &mut D,
    feeder: &mut TapFeeder<'_, R>,
    centre: u8,
    log: &mut Log,
) -> Result<(), NoMemory>
    requires { IsBehind (D.shown door.old) centre }
    ensures place { D.place door.new ≡ D.place door.old }
    ensures feeds { OnOk result (AddsSuch (FeedsBy centre feeder.old feeder.new) (acting (D.shown door.old) log.old) (acting (D.shown door.new) log.new)) }
{
    if feeder.objects().is_empty() {
        return Ok(());
    }
    let fed = feeder.feed(alloc, door, centre, log)?;
    log.push(Deed::Told(Line::Feed { centre, fed }))
}

// Feeds the tap of a centre behind a door by its feeder among those of the first centres; nothing where there is none.
fn feed_at<D: Door, R: Wait>(
    alloc: Global,
    door: &mut D,
    feeders: &mut Vec<TapFeeder<'_, R>>,
    centre: u8,
    log: &mut Log,
) -> Result<(), NoMemory>
    requires { IsBehind (D.shown door.old) centre }
    ensures place { D.place door.new ≡ D.place door.old }
    ensures feeds { OnOk result ((taps : List TapState) → AreFeeders (D.shown door.old).centres taps feeders.old.items → AddsSuch (FeedsAmong taps centre feeders.old.items feeders.new.items) (acting (D.shown door.old) log.old) (acting (D.shown door.new) log.new)) }
{
    let place = (centre - 1) as usize;
    if place >= feeders.len() {
        return Ok(());
    }
    feed_by(alloc, door, &mut feeders[place], centre, log)
}

/// Has the operator of a scene take a step through a door to its centres, which it leaves at its place, or feed a tap of
/// them by its feeder. After an `Err`, want of memory, a part of the step may be done.
pub(crate) fn take_order<D: Door, R: Wait>(
    alloc: Global,
    door: &mut D,
    scene: Scene<'_>,
    feeders: &mut Vec<TapFeeder<'_, R>>,
    step: &OperatorStep,
    log: &mut Log,
) -> Result<(), NoMemory>
    requires centres { (D.shown door.old).centres ≡ scene.script.now.n }
    requires fits { IsOperatorStep scene.script.now.n step.now }
    requires feeders { AreFeeders scene.script.now.n scene.taps.now feeders.old.items }
    ensures place { D.place door.new ≡ D.place door.old }
    ensures takes { OnOk result (TakesOrder scene.entry.taps.now scene.entry.script.now.n step.now feeders.old.items feeders.new.items (acting (D.shown door.old) log.old) (acting (D.shown door.new) log.new)) }
{
    match feed_in(step) {
        Some(centre) => feed_at(alloc, door, feeders, centre, log),
        None => operate(door, scene.script.n, step, log),
    }
}
