// What a receiver takes from one link and delivers.
ghost use Rattle.std.specs.Prelude.{◌≡◌, ◌≢◌, ◌≤◌, true, false, cond, length, IfOk, OnOk, OnErr};
ghost use Rattle.dc_talk.specs.Acting.{acting, IsCutShort};
ghost use Rattle.dc_talk.specs.Doors.{IsBehind};
ghost use Rattle.script_core.specs.declared.rounds.TheConstants.{MOST_MAILED};
ghost use Rattle.script_core.specs.Carrying.{route};
ghost use Rattle.mail_link.specs.Ends.{one_more};
ghost use Rattle.dc_worker.specs.Brings.{Receives, Closes, StopsAt, ReceivesPart, incoming};
ghost use Rattle.dc_links.specs.Links.{IsMore};

use dc_talk::{Door, Log};
use dc_worker::{Inlet, bring_held, bring_one};
use ids_core::NoMemory;
use link_frames::Frame;
use mail_link::{Giver, Link, Taker};
use script_core::MOST_MAILED;
use std::alloc::Global;
use std::sync::Wait;

/// Takes frames from the link from a centre, at most `MOST_MAILED` of them, until none is found, and delivers to a centre
/// behind the door what comes of them, whatever it answers, or notes what was spoilt. Answers how many were taken. An `Err`
/// is want of memory, or that 2^64 - 1 frames were taken since the fault was set: some may have been taken, and what comes
/// of them delivered.
pub fn take_round<R: Wait, D: Door>(
    rt: &R,
    alloc: Global,
    door: &mut D,
    from: u8,
    at: u8,
    inlet: &mut Inlet,
    link: &Link<Frame>,
    taker: &mut Taker<Frame>,
    log: &mut Log,
) -> Result<u32, NoMemory>
    requires at { IsBehind (D.shown door.old) at }
    requires link { taker.old.link ≡ link.now }
    ensures place { D.place door.new ≡ D.place door.old }
    ensures link { taker.new.link ≡ link.now }
    ensures receives { IfOk result (λ number. Receives (route from at) number (incoming (acting (D.shown door.old) log.old) inlet.old taker.old.taken) (incoming (acting (D.shown door.new) log.new) inlet.new taker.new.taken)) }
    ensures most { IfOk result (λ number. number ≤ MOST_MAILED) }
    ensures full { IfOk result (λ number. number ≡ MOST_MAILED → taker.new.misses ≡ taker.old.misses) }
    ensures fewer { IfOk result (λ number. number ≢ MOST_MAILED → taker.new.misses ≡ one_more taker.old.misses) }
    ensures short { OnErr result (IsCutShort (acting (D.shown door.old) log.old) (acting (D.shown door.new) log.new)) }
    ensures part { OnErr result (ReceivesPart (route from at) (incoming (acting (D.shown door.old) log.old) inlet.old taker.old.taken) (incoming (acting (D.shown door.new) log.new) inlet.new taker.new.taken)) }
    ensures kept { OnErr result (IsMore taker.old.taken taker.new.taken) }
{
    'items: for number in 0..MOST_MAILED {
        if !take_one(rt, alloc, door, from, at, inlet, link, taker, log)? {
            return Ok(number);
        }
    }
    Ok(MOST_MAILED)
}

/// Takes frames from the link from a centre until all that were put were taken, trying again where none is found, and
/// delivers to a centre behind the door what comes of them where no more come, whatever it answers, or notes what was
/// spoilt. It ends when the link gives what lies on it. Answers how many were taken. An `Err` is want of memory, or that
/// 2^64 - 1 frames were taken since the fault was set: some may have been taken, and what comes of them delivered.
pub fn drain_round<R: Wait, D: Door>(
    rt: &R,
    alloc: Global,
    door: &mut D,
    from: u8,
    at: u8,
    inlet: &mut Inlet,
    link: &Link<Frame>,
    giver: &Giver<Frame>,
    taker: &mut Taker<Frame>,
    log: &mut Log,
) -> Result<u64, NoMemory>
    requires at { IsBehind (D.shown door.old) at }
    requires giver { giver.now.link ≡ link.now }
    requires taker { taker.old.link ≡ link.now }
    ensures place { D.place door.new ≡ D.place door.old }
    ensures link { taker.new.link ≡ link.now }
    ensures closes { IfOk result (λ number. Closes (route from at) number (incoming (acting (D.shown door.old) log.old) inlet.old taker.old.taken) (incoming (acting (D.shown door.new) log.new) inlet.new taker.new.taken)) }
    ensures all { OnOk result (length taker.new.taken ≡ length giver.now.put) }
    ensures short { OnErr result (IsCutShort (acting (D.shown door.old) log.old) (acting (D.shown door.new) log.new)) }
    ensures part { OnErr result (ReceivesPart (route from at) (incoming (acting (D.shown door.old) log.old) inlet.old taker.old.taken) (incoming (acting (D.shown door.new) log.new) inlet.new taker.new.taken)) }
    ensures kept { OnErr result (IsMore taker.old.taken taker.new.taken) }
{
    let number = take_all(rt, alloc, door, from, at, inlet, link, giver, taker, log)?;
    bring_held(door, from, at, inlet, log)?;
    Ok(number)
}

// The same while more may come: what is held at the end stays so.
fn take_all<R: Wait, D: Door>(
    rt: &R,
    alloc: Global,
    door: &mut D,
    from: u8,
    at: u8,
    inlet: &mut Inlet,
    link: &Link<Frame>,
    giver: &Giver<Frame>,
    taker: &mut Taker<Frame>,
    log: &mut Log,
) -> Result<u64, NoMemory>
    requires at { IsBehind (D.shown door.old) at }
    requires link { taker.old.link ≡ link.now }
    ensures place { D.place door.new ≡ D.place door.old }
    ensures link { taker.new.link ≡ link.now }
    ensures receives { IfOk result (λ number. Receives (route from at) number (incoming (acting (D.shown door.old) log.old) inlet.old taker.old.taken) (incoming (acting (D.shown door.new) log.new) inlet.new taker.new.taken)) }
    ensures all { OnOk result (length taker.new.taken ≡ length giver.now.put) }
    ensures short { OnErr result (IsCutShort (acting (D.shown door.old) log.old) (acting (D.shown door.new) log.new)) }
    ensures part { OnErr result (ReceivesPart (route from at) (incoming (acting (D.shown door.old) log.old) inlet.old taker.old.taken) (incoming (acting (D.shown door.new) log.new) inlet.new taker.new.taken)) }
    ensures kept { OnErr result (IsMore taker.old.taken taker.new.taken) }
{
    let before = taker.takes();
    'items: for _ in rt.forever() {
        if taker.takes() == giver.puts() {
            break 'items;
        }
        take_one(rt, alloc, door, from, at, inlet, link, taker, log)?;
    }
    Ok(taker.takes() - before)
}

// Takes a frame from a link, where one is found, and delivers what comes of it. Answers whether one was found.
fn take_one<R: Wait, D: Door>(
    rt: &R,
    alloc: Global,
    door: &mut D,
    from: u8,
    at: u8,
    inlet: &mut Inlet,
    link: &Link<Frame>,
    taker: &mut Taker<Frame>,
    log: &mut Log,
) -> Result<bool, NoMemory>
    requires at { IsBehind (D.shown door.old) at }
    requires link { taker.old.link ≡ link.now }
    ensures place { D.place door.new ≡ D.place door.old }
    ensures link { taker.new.link ≡ link.now }
    ensures receives { IfOk result (λ found. Receives (route from at) (cond found 1 0) (incoming (acting (D.shown door.old) log.old) inlet.old taker.old.taken) (incoming (acting (D.shown door.new) log.new) inlet.new taker.new.taken)) }
    ensures found { IfOk result (λ found. found ≡ true → taker.new.misses ≡ taker.old.misses) }
    ensures missed { IfOk result (λ found. found ≡ false → taker.new.misses ≡ one_more taker.old.misses) }
    ensures short { OnErr result (IsCutShort (acting (D.shown door.old) log.old) (acting (D.shown door.new) log.new)) }
    ensures stops { OnErr result (StopsAt (incoming (acting (D.shown door.old) log.old) inlet.old taker.old.taken) (incoming (acting (D.shown door.new) log.new) inlet.new taker.new.taken)) }
    ensures kept { OnErr result (IsMore taker.old.taken taker.new.taken) }
{
    match link.take(rt, taker) {
        Some(frame) => {
            bring_one(alloc, door, from, at, inlet, frame, log)?;
            Ok(true)
        }
        None => Ok(false),
    }
}
