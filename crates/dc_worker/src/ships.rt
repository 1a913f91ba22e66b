// Deliveries of a centre's records to another one.
ghost use Rattle.std.specs.Prelude.{◌≡◌, ◌≢◌, ◌≤◌, ◌-◌, Some, IfOk, OnErr};
ghost use Rattle.dc_talk.specs.declared.ask.Ask.TheVariants.{Send};
ghost use Rattle.dc_talk.specs.declared.line.ShipEnd.TheVariants.{Absent};
ghost use Rattle.dc_talk.specs.Acting.{acting, IsCutShort};
ghost use Rattle.dc_talk.specs.Doors.{IsBehind};
ghost use Rattle.script_core.specs.Carrying.{route, Sends, Ships, Supplies};
ghost use Rattle.dc_worker.specs.Sends.{IsNumbered, need_of};
ghost use Rattle.dc_worker.specs.Work.{CarriesSuch};

use crate::asks::ask_unheard;
use crate::deliveries::deliver_all;
use crate::sends::{Handed, Need, hand_on, handed_of};
use dc_talk::{Ask, Door, Log, MOST_SENT, ShipEnd};
use ids_core::NoMemory;

/// Delivers the record of this number, at least 1, that a centre stamped to another one. Both are behind the door.
/// Answers how that ended. An `Err` is want of memory: one or both may have been asked.
pub fn ship_one<D: Door>(
    door: &mut D,
    from: u8,
    to: u8,
    seq: u64,
    log: &mut Log,
) -> Result<Option<ShipEnd>, NoMemory>
    requires from { IsBehind (D.shown door.old) from }
    requires to { IsBehind (D.shown door.old) to }
    requires apart { from ≢ to }
    requires seq { 1 ≤ seq }
    ensures place { D.place door.new ≡ D.place door.old }
    ensures ships { IfOk result (λ end. CarriesSuch (λ deeds. Sends (route from to) (Some (Absent seq)) (Send (seq - 1) 1) deeds end) (acting (D.shown door.old) log.old) (acting (D.shown door.new) log.new)) }
    ensures short { OnErr result (IsCutShort (acting (D.shown door.old) log.old) (acting (D.shown door.new) log.new)) }
{
    let after = seq - 1;
    let say = ask_unheard(door, from, Ask::Send { after, most: 1 }, log)?;
    match handed_of(from, say) {
        Handed::Items(items) => deliver_all(door, to, items, Some(ShipEnd::Absent { seq }), log),
        Handed::Ended(end) => Ok(end),
    }
}

/// Delivers the records that a centre stamped and another one lacks there, at most `MOST_SENT` of them, until one is
/// answered neither `Applied` nor `Old`. Both are behind the door. Answers how the last delivery ended: nothing where
/// there was none. An `Err` is want of memory: one or both may have been asked.
pub fn ship_all<D: Door>(
    door: &mut D,
    from: u8,
    to: u8,
    log: &mut Log,
) -> Result<Option<ShipEnd>, NoMemory>
    requires from { IsBehind (D.shown door.old) from }
    requires to { IsBehind (D.shown door.old) to }
    requires apart { from ≢ to }
    ensures place { D.place door.new ≡ D.place door.old }
    ensures ships { IfOk result (λ end. CarriesSuch (λ deeds. Ships (route from to) deeds end) (acting (D.shown door.old) log.old) (acting (D.shown door.new) log.new)) }
    ensures short { OnErr result (IsCutShort (acting (D.shown door.old) log.old) (acting (D.shown door.new) log.new)) }
{
    supply(door, from, to, Need::Own { most: MOST_SENT }, log)
}

// Delivers the records that a centre needs and another one hands on, until one is answered neither `Applied` nor `Old`.
// Both are behind the door. Answers how the last delivery ended: nothing where there was none.
pub(crate) fn supply<D: Door>(
    door: &mut D,
    from: u8,
    to: u8,
    need: Need,
    log: &mut Log,
) -> Result<Option<ShipEnd>, NoMemory>
    requires from { IsBehind (D.shown door.old) from }
    requires to { IsBehind (D.shown door.old) to }
    requires need { IsNumbered need }
    ensures place { D.place door.new ≡ D.place door.old }
    ensures supplies { IfOk result (λ end. CarriesSuch (λ deeds. Supplies (route from to) (need_of need from) deeds end) (acting (D.shown door.old) log.old) (acting (D.shown door.new) log.new)) }
    ensures short { OnErr result (IsCutShort (acting (D.shown door.old) log.old) (acting (D.shown door.new) log.new)) }
{
    match hand_on(door, from, to, need, log)? {
        Handed::Items(items) => deliver_all(door, to, items, None, log),
        Handed::Ended(end) => Ok(end),
    }
}
