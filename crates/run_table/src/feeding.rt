// What the operator feeds taps with.
ghost use Rattle.std.specs.Prelude.{◌≡◌, OnOk, OnErr};
ghost use Rattle.dc_talk.specs.Acting.{IsCutShort, acting};
ghost use Rattle.dc_talk.specs.Doors.{IsBehind};
ghost use Rattle.script_core.specs.Steps.{IsOperatorStep};
ghost use Rattle.script_core.specs.Taps.{feed_in};
ghost use Rattle.dc_worker.specs.Work.{AddsSuch};
ghost use Rattle.run_table.specs.Taps.{FeedsTap, FeedsOne, OperatesWith};

use client_stub::operate;
use dc_talk::{Door, Log};
use dc_worker::feed;
use ids_core::NoMemory;
use script_core::{OperatorStep, TapState};
use std::alloc::Global;

// Feeds the tap of a centre through a door. After an `Err`, want of memory, the tap is as it was.
fn feed_tap<D: Door>(
    alloc: Global,
    door: &mut D,
    tap: &mut TapState,
    centre: u8,
    log: &mut Log,
) -> Result<(), NoMemory>
    requires { IsBehind (D.shown door.old) centre }
    ensures place { D.place door.new ≡ D.place door.old }
    ensures feeds { OnOk result (AddsSuch (FeedsTap centre tap.old tap.new) (acting (D.shown door.old) log.old) (acting (D.shown door.new) log.new)) }
    ensures stays { OnErr result (tap.new ≡ tap.old) }
    ensures short { OnErr result (IsCutShort (acting (D.shown door.old) log.old) (acting (D.shown door.new) log.new)) }
{
    match feed(alloc, door, centre, tap.objects.as_slice(), log)? {
        Some(show) => {
            tap.show = show;
            Ok(())
        }
        None => Ok(()),
    }
}

// Feeds the tap of a centre among these through a door; nothing where there is no such tap. After an `Err`, want of memory,
// the taps are as they were.
fn feed_one<D: Door>(
    alloc: Global,
    door: &mut D,
    taps: &mut Vec<TapState>,
    centre: u8,
    log: &mut Log,
) -> Result<(), NoMemory>
    requires { IsBehind (D.shown door.old) centre }
    ensures place { D.place door.new ≡ D.place door.old }
    ensures feeds { OnOk result (AddsSuch (FeedsOne centre taps.old.items taps.new.items) (acting (D.shown door.old) log.old) (acting (D.shown door.new) log.new)) }
    ensures stays { OnErr result (taps.new.items ≡ taps.old.items) }
    ensures short { OnErr result (IsCutShort (acting (D.shown door.old) log.old) (acting (D.shown door.new) log.new)) }
{
    let place = (centre - 1) as usize;
    if place >= taps.len() {
        return Ok(());
    }
    feed_tap(alloc, door, &mut taps[place], centre, log)
}

/// The centre whose tap a step feeds, where it does.
pub fn feed_in(step: &OperatorStep) -> Option<u8>
    ensures { result ≡ feed_in step.now }
{
    match step {
        OperatorStep::Feed { centre } => Some(*centre),
        _ => None,
    }
}

/// Has the operator of `n` centres take a step through a door to them, which it leaves at its place, or feed a tap of them.
/// An `Err` is want of memory: it may leave a part of the step in the log and at the centres, and the taps are as they
/// were.
pub(crate) fn order_step<D: Door>(
    alloc: Global,
    door: &mut D,
    n: u8,
    taps: &mut Vec<TapState>,
    step: &OperatorStep,
    log: &mut Log,
) -> Result<(), NoMemory>
    requires centres { n ≡ (D.shown door.old).centres }
    requires fits { IsOperatorStep n step.now }
    ensures place { D.place door.new ≡ D.place door.old }
    ensures operates { OnOk result (OperatesWith n step.now taps.old.items taps.new.items (acting (D.shown door.old) log.old) (acting (D.shown door.new) log.new)) }
    ensures stays { OnErr result (taps.new.items ≡ taps.old.items) }
    ensures short { OnErr result (IsCutShort (acting (D.shown door.old) log.old) (acting (D.shown door.new) log.new)) }
{
    match feed_in(step) {
        Some(centre) => feed_one(alloc, door, taps, centre, log),
        None => operate(door, n, step, log),
    }
}
