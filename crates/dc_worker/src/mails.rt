// What the workers of a centre do over a door, besides what they take from a link.
ghost use Rattle.std.specs.Prelude.{◌≡◌, ◌≢◌, IfOk, OnOk, OnErr, Option};
ghost use Rattle.dc_talk.specs.declared.ask.Ask.TheVariants.{Prune};
ghost use Rattle.dc_talk.specs.declared.line.Line.{Line};
ghost use Rattle.dc_talk.specs.Acting.{acting, IsCutShort};
ghost use Rattle.dc_talk.specs.Doors.{IsBehind};
ghost use Rattle.script_core.specs.Carrying.{route, Tells};
ghost use Rattle.script_core.specs.Orders.{Orders};
ghost use Rattle.script_core.specs.Rounds.{Mails};
ghost use Rattle.dc_worker.specs.Work.{CarriesSuch};

use crate::asks::ask_only;
use crate::sends::{Handed, send_for};
use crate::tells::tell;
use dc_talk::{Ask, Door, Log, Records};
use ids_core::NoMemory;
use script_core::MOST_MAILED;
use std::alloc::Global;

/// Has a centre report what it has, and another one send what the first lacks of its own records, at most
/// `MOST_MAILED` of them. Both are behind the door. Answers these records: none where one of the two gives no answer of
/// its kind. An `Err` is want of memory: one or both may have been asked.
pub fn mail_for<D: Door>(
    alloc: Global,
    door: &mut D,
    from: u8,
    to: u8,
    log: &mut Log,
) -> Result<Records, NoMemory>
    requires from { IsBehind (D.shown door.old) from }
    requires to { IsBehind (D.shown door.old) to }
    ensures place { D.place door.new ≡ D.place door.old }
    ensures mails { IfOk result (λ items. CarriesSuch (λ deeds. Mails (route from to) deeds items) (acting (D.shown door.old) log.old) (acting (D.shown door.new) log.new)) }
    ensures short { OnErr result (IsCutShort (acting (D.shown door.old) log.old) (acting (D.shown door.new) log.new)) }
{
    match send_for(door, from, to, MOST_MAILED, log)? {
        Handed::Items(items) => Ok(items),
        Handed::Ended(_) => Ok(Records::new(alloc)),
    }
}

/// Tells a centre what another one has. Both are behind the door. An `Err` is want of memory: one or both may have been
/// asked.
pub fn report_round<D: Door>(door: &mut D, from: u8, to: u8, log: &mut Log) -> Result<(), NoMemory>
    requires from { IsBehind (D.shown door.old) from }
    requires to { IsBehind (D.shown door.old) to }
    requires apart { from ≢ to }
    ensures place { D.place door.new ≡ D.place door.old }
    ensures tells { OnOk result (CarriesSuch (λ deeds. (line : Option Line) × Tells (route from to) deeds line) (acting (D.shown door.old) log.old) (acting (D.shown door.new) log.new)) }
    ensures short { OnErr result (IsCutShort (acting (D.shown door.old) log.old) (acting (D.shown door.new) log.new)) }
{
    tell(door, from, to, log)?;
    Ok(())
}

/// Has a centre behind the door prune. An `Err` is want of memory: the centre may have been asked.
pub fn prune_round<D: Door>(door: &mut D, at: u8, log: &mut Log) -> Result<(), NoMemory>
    requires { IsBehind (D.shown door.old) at }
    ensures place { D.place door.new ≡ D.place door.old }
    ensures orders { OnOk result (CarriesSuch (Orders at Prune) (acting (D.shown door.old) log.old) (acting (D.shown door.new) log.new)) }
    ensures short { OnErr result (IsCutShort (acting (D.shown door.old) log.old) (acting (D.shown door.new) log.new)) }
{
    ask_only(door, at, Ask::Prune, log)
}
