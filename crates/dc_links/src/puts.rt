// What a sender puts on one link.
ghost use Rattle.std.specs.Prelude.{◌≡◌, [], ◌∷◌, ◌++◌, length, IfOk, OnOk, OnErr};
ghost use Rattle.dc_talk.specs.Acting.{acting, IsCutShort};
ghost use Rattle.dc_talk.specs.Doors.{IsBehind};
ghost use Rattle.link_frames.specs.Frames.{framed};
ghost use Rattle.script_core.specs.Carrying.{route};
ghost use Rattle.dc_links.specs.Links.{IsMore};
ghost use Rattle.dc_links.specs.Puts.{Posts, outgoing};

use dc_talk::{Door, Log, Records, Sent};
use dc_worker::{Handed, send_for};
use ids_core::NoMemory;
use link_frames::{Frame, fits};
use mail_link::{Giver, Link};
use script_core::MOST_MAILED;
use std::alloc::Global;
use std::sync::Wait;

/// Has a centre report what it has, and another one send what the first lacks of its own records, at most
/// `MOST_MAILED` of them, and puts the frames of those that have one on a link, in order. Both are behind the door.
/// Answers how many were put: none where one of the two gives no answer of its kind. An `Err` is want of memory: one or
/// both may have been asked, and the first of the frames may have been put.
pub fn send_round<R: Wait, D: Door>(
    rt: &R,
    alloc: Global,
    door: &mut D,
    from: u8,
    to: u8,
    link: &Link<Frame>,
    giver: &mut Giver<Frame>,
    log: &mut Log,
) -> Result<u64, NoMemory>
    requires from { IsBehind (D.shown door.old) from }
    requires to { IsBehind (D.shown door.old) to }
    requires link { giver.old.link ≡ link.now }
    ensures place { D.place door.new ≡ D.place door.old }
    ensures link { giver.new.link ≡ link.now }
    ensures posts { IfOk result (λ number. Posts (route from to) number (outgoing (acting (D.shown door.old) log.old) giver.old.put) (outgoing (acting (D.shown door.new) log.new) giver.new.put)) }
    ensures short { OnErr result (IsCutShort (acting (D.shown door.old) log.old) (acting (D.shown door.new) log.new)) }
    ensures kept { OnErr result (IsMore giver.old.put giver.new.put) }
{
    match send_for(door, from, to, MOST_MAILED, log)? {
        Handed::Items(items) => put_all(rt, alloc, link, giver, items),
        Handed::Ended(_) => Ok(0),
    }
}

// Puts the frames of records that have one on a link, in order. Answers how many. After an `Err` the first of them may
// have been put.
fn put_all<R: Wait>(
    rt: &R,
    alloc: Global,
    link: &Link<Frame>,
    giver: &mut Giver<Frame>,
    items: Records,
) -> Result<u64, NoMemory>
    requires { giver.old.link ≡ link.now }
    ensures link { giver.new.link ≡ link.now }
    ensures put { IfOk result (λ number. (giver.new.put ≡ giver.old.put ++ framed items) × (number ≡ length (framed items))) }
    ensures kept { OnErr result (IsMore giver.old.put giver.new.put) }
{
    let before = giver.puts();
    'items: for item in items.into_vec() {
        put_one(rt, alloc, link, giver, &item)?;
    }
    Ok(giver.puts() - before)
}

// Puts the frame of a record on a link, where it has one. After an `Err` it was not put.
fn put_one<R: Wait>(
    rt: &R,
    alloc: Global,
    link: &Link<Frame>,
    giver: &mut Giver<Frame>,
    item: &Sent,
) -> Result<(), NoMemory>
    requires { giver.old.link ≡ link.now }
    ensures link { giver.new.link ≡ link.now }
    ensures put { OnOk result (giver.new.put ≡ giver.old.put ++ framed (item.now ∷ [])) }
    ensures none { OnErr result (giver.new.put ≡ giver.old.put) }
{
    if !fits(item) {
        return Ok(());
    }
    let frame = Frame::of(alloc, item)?;
    match link.put(rt, giver, frame) {
        Ok(()) => Ok(()),
        Err(_) => Err(NoMemory),
    }
}
