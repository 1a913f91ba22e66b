// The steps of the operator.
ghost use Rattle.std.specs.Prelude.{◌≡◌, ◌≢◌, ◌≤◌, ℕ, OnOk, OnErr};
ghost use Rattle.script_core.specs.declared.steps.OperatorStep.TheVariants.{ShipOne, Ship, Relay, Tell, Prune};
ghost use Rattle.script_core.specs.Steps.{IsOperatorStep};
ghost use Rattle.dc_talk.specs.Acting.{IsCutShort, acting};
ghost use Rattle.dc_talk.specs.Doors.{IsBehind};
ghost use Rattle.client_stub.specs.Playing.{Operates};

use crate::notes;
use dc_talk::{Ask, Door, Log};
use dc_worker::{
    ask_only, ask_unheard, base_line, relay_all, relay_line, settle, ship_all, ship_line, ship_one,
    tell,
};
use ids_core::NoMemory;
use script_core::OperatorStep;

/// Takes a step of the operator of `n` centres through a door to them, which it leaves at its place: its asks of
/// the centres, and then its line, where it has one. A link's fault it leaves to the caller, who has the links, and so it
/// does with the feed of a tap, for which it does nothing: the caller, who has the taps, plays it. The notes are of the
/// section and step that the log is at. An `Err` is want of memory: it may leave a part of the step in the log and at the
/// centres.
pub fn operate<D: Door>(
    door: &mut D,
    n: u8,
    step: &OperatorStep,
    log: &mut Log,
) -> Result<(), NoMemory>
    requires centres { n ≡ (D.shown door.old).centres }
    requires fits { IsOperatorStep n step.now }
    ensures place { D.place door.new ≡ D.place door.old }
    ensures operates { OnOk result (Operates n step.now (acting (D.shown door.old) log.old) (acting (D.shown door.new) log.new)) }
    ensures short { OnErr result (IsCutShort (acting (D.shown door.old) log.old) (acting (D.shown door.new) log.new)) }
{
    match step {
        OperatorStep::Down { centre } => ask_only(door, *centre, Ask::Stop, log),
        OperatorStep::Up { centre } => ask_only(door, *centre, Ask::Start, log),
        OperatorStep::ShipOne { from, to, seq } => order_ship_one(door, *from, *to, *seq, log),
        OperatorStep::Ship { from, to } => order_ship(door, *from, *to, log),
        OperatorStep::Relay { from, origin, to } => order_relay(door, *from, *origin, *to, log),
        OperatorStep::Tell { from, to } => order_tell(door, *from, *to, log),
        OperatorStep::Prune { centre } => order_prune(door, *centre, log),
        OperatorStep::Link { .. } => Ok(()),
        OperatorStep::Feed { .. } => Ok(()),
        OperatorStep::Settle => {
            settle(door, n, log)?;
            Ok(())
        }
    }
}

// The step `ship` of one record.
fn order_ship_one<D: Door>(
    door: &mut D,
    from: u8,
    to: u8,
    seq: u64,
    log: &mut Log,
) -> Result<(), NoMemory>
    requires from { IsBehind (D.shown door.old) from }
    requires to { IsBehind (D.shown door.old) to }
    requires apart { from ≢ to }
    requires seq { 1 ≤ seq }
    ensures place { D.place door.new ≡ D.place door.old }
    ensures operates { OnOk result ((n : ℕ) → Operates n (ShipOne from to seq) (acting (D.shown door.old) log.old) (acting (D.shown door.new) log.new)) }
    ensures short { OnErr result (IsCutShort (acting (D.shown door.old) log.old) (acting (D.shown door.new) log.new)) }
{
    let end = ship_one(door, from, to, seq, log)?;
    notes::tell(log, ship_line(from, to, end))?;
    Ok(())
}

// The step `ship` of what a centre lacks.
fn order_ship<D: Door>(door: &mut D, from: u8, to: u8, log: &mut Log) -> Result<(), NoMemory>
    requires from { IsBehind (D.shown door.old) from }
    requires to { IsBehind (D.shown door.old) to }
    requires apart { from ≢ to }
    ensures place { D.place door.new ≡ D.place door.old }
    ensures operates { OnOk result ((n : ℕ) → Operates n (Ship from to) (acting (D.shown door.old) log.old) (acting (D.shown door.new) log.new)) }
    ensures short { OnErr result (IsCutShort (acting (D.shown door.old) log.old) (acting (D.shown door.new) log.new)) }
{
    let last = ship_all(door, from, to, log)?;
    notes::tell(log, ship_line(from, to, last))?;
    Ok(())
}

// The step `relay` of what a centre lacks of an origin's records.
fn order_relay<D: Door>(
    door: &mut D,
    from: u8,
    origin: u8,
    to: u8,
    log: &mut Log,
) -> Result<(), NoMemory>
    requires from { IsBehind (D.shown door.old) from }
    requires origin { IsBehind (D.shown door.old) origin }
    requires to { IsBehind (D.shown door.old) to }
    requires apart { from ≢ to }
    ensures place { D.place door.new ≡ D.place door.old }
    ensures operates { OnOk result ((n : ℕ) → Operates n (Relay from origin to) (acting (D.shown door.old) log.old) (acting (D.shown door.new) log.new)) }
    ensures short { OnErr result (IsCutShort (acting (D.shown door.old) log.old) (acting (D.shown door.new) log.new)) }
{
    let last = relay_all(door, from, origin, to, log)?;
    notes::tell(log, relay_line(from, origin, to, last))?;
    Ok(())
}

// The step `tell`.
fn order_tell<D: Door>(door: &mut D, from: u8, to: u8, log: &mut Log) -> Result<(), NoMemory>
    requires from { IsBehind (D.shown door.old) from }
    requires to { IsBehind (D.shown door.old) to }
    requires apart { from ≢ to }
    ensures place { D.place door.new ≡ D.place door.old }
    ensures operates { OnOk result ((n : ℕ) → Operates n (Tell from to) (acting (D.shown door.old) log.old) (acting (D.shown door.new) log.new)) }
    ensures short { OnErr result (IsCutShort (acting (D.shown door.old) log.old) (acting (D.shown door.new) log.new)) }
{
    let line = tell(door, from, to, log)?;
    notes::tell(log, line)?;
    Ok(())
}

// The step `prune`.
fn order_prune<D: Door>(door: &mut D, centre: u8, log: &mut Log) -> Result<(), NoMemory>
    requires { IsBehind (D.shown door.old) centre }
    ensures place { D.place door.new ≡ D.place door.old }
    ensures operates { OnOk result ((n : ℕ) → Operates n (Prune centre) (acting (D.shown door.old) log.old) (acting (D.shown door.new) log.new)) }
    ensures short { OnErr result (IsCutShort (acting (D.shown door.old) log.old) (acting (D.shown door.new) log.new)) }
{
    let say = ask_unheard(door, centre, Ask::Prune, log)?;
    notes::tell(log, base_line(centre, &say))?;
    Ok(())
}
