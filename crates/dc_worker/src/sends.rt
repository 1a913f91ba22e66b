// Asks, by which a centre hands on records.
ghost use Rattle.std.specs.Prelude.{◌≡◌, ◌≤◌, IfOk, OnErr};
ghost use Rattle.vv_core.specs.Vectors.{at};
ghost use Rattle.dc_talk.specs.Acting.{acting, IsCutShort};
ghost use Rattle.dc_talk.specs.Doors.{IsBehind};
ghost use Rattle.script_core.specs.Carrying.{route};
ghost use Rattle.dc_worker.specs.Work.{AddsSuch};
ghost use Rattle.dc_worker.specs.Sends.{AsksFor, IsNumbered, need_of, own_part, handed_of};

use crate::asks::ask_unheard;
use crate::ends::{send_end, stopped_end};
use crate::reports::{Reported, ask_report};
use dc_talk::{Ask, Door, Log, MOST_SENT, Records, Say, ShipEnd};
use ids_core::NoMemory;
use vv_core::Vector;

// Which of the records that another centre lacks a centre is asked for.
#[derive(Clone, Copy)]
pub(crate) enum Need {
    // Its own, at most so many.
    Own { most: u32 },
    // Those of an origin, at most `MOST_SENT`.
    Of { origin: u8 },
}

/// What an ask for records came to.
#[derive(Drop)]
pub enum Handed {
    /// The records that are to be delivered.
    Items(Records),
    /// There are none, since a delivery ends so.
    Ended(Option<ShipEnd>),
}

/// Has a centre report what it has, and another one send so many of its own records that the first lacks. Both are
/// behind the door. Answers the records, or how a delivery of them ended where there are none. An `Err` is want of
/// memory: one or both may have been asked.
pub fn send_for<D: Door>(
    door: &mut D,
    from: u8,
    to: u8,
    most: u32,
    log: &mut Log,
) -> Result<Handed, NoMemory>
    requires from { IsBehind (D.shown door.old) from }
    requires to { IsBehind (D.shown door.old) to }
    ensures place { D.place door.new ≡ D.place door.old }
    ensures sends { IfOk result (λ handed. AddsSuch (λ deeds. AsksFor (route from to) (own_part (route from to) most) deeds handed) (acting (D.shown door.old) log.old) (acting (D.shown door.new) log.new)) }
    ensures short { OnErr result (IsCutShort (acting (D.shown door.old) log.old) (acting (D.shown door.new) log.new)) }
{
    hand_on(door, from, to, Need::Own { most }, log)
}

// Has a centre report what it has, and another one hand on what the first needs. Both are behind the door. Answers the
// records, or how a delivery of them ended where there are none.
pub(crate) fn hand_on<D: Door>(
    door: &mut D,
    from: u8,
    to: u8,
    need: Need,
    log: &mut Log,
) -> Result<Handed, NoMemory>
    requires from { IsBehind (D.shown door.old) from }
    requires to { IsBehind (D.shown door.old) to }
    requires need { IsNumbered need }
    ensures place { D.place door.new ≡ D.place door.old }
    ensures asks { IfOk result (λ handed. AddsSuch (λ deeds. AsksFor (route from to) (need_of need from) deeds handed) (acting (D.shown door.old) log.old) (acting (D.shown door.new) log.new)) }
    ensures short { OnErr result (IsCutShort (acting (D.shown door.old) log.old) (acting (D.shown door.new) log.new)) }
{
    match ask_report(door, to, log)? {
        Reported::Has(vector) => {
            let ask = ask_of(need, from, &vector);
            let say = ask_unheard(door, from, ask, log)?;
            Ok(handed_of(from, say))
        }
        Reported::Else(say) => Ok(Handed::Ended(stopped_end(to, &say))),
    }
}

// What a centre is asked, by the vector of the one that lacks.
fn ask_of(need: Need, from: u8, vector: &Vector) -> Ask
    requires from { 1 ≤ from }
    requires need { IsNumbered need }
    ensures { result ≡ need_of need from vector.now }
{
    match need {
        Need::Own { most } => Ask::Send {
            after: entry_of(vector, from),
            most,
        },
        Need::Of { origin } => Ask::Relay {
            origin,
            after: entry_of(vector, origin),
            most: MOST_SENT,
        },
    }
}

// What the answer of the centre that was asked for records gives.
pub(crate) fn handed_of(from: u8, say: Say) -> Handed
    ensures { result ≡ handed_of from say }
{
    match say {
        Say::Records { list } => Handed::Items(list),
        say => Handed::Ended(send_end(from, &say)),
    }
}

// The entry of a centre, counted from 1, and 0 where there is none.
fn entry_of(vector: &Vector, centre: u8) -> u64
    requires { 1 ≤ centre }
    ensures { result ≡ at vector.now centre }
{
    if centre <= vector.width() {
        vector.get(centre)
    } else {
        0
    }
}
