// A round of a sender.
ghost use Rattle.std.specs.Prelude.{◌≡◌, length, OnOk, OnErr};
ghost use Rattle.dc_talk.specs.Acting.{acting, IsCutShort};
ghost use Rattle.dc_talk.specs.Doors.{IsBehind};
ghost use Rattle.dc_links.specs.Links.{IsAmong, AreGivers};
ghost use Rattle.dc_links.specs.Rounds.{SendsOver, SendsTo, SendsPart, PutsPart};

use crate::links::Links;
use crate::puts::send_round;
use dc_talk::{Door, Log};
use ids_core::NoMemory;
use link_frames::Frame;
use mail_link::Giver;
use std::alloc::Global;
use std::sync::Wait;

/// Puts on the link from a centre to each other one of the `n` behind the door what that one lacks of this centre's
/// records, at most 64 each. An `Err` is want of memory: the round was made over the links to some first centres, and
/// over the next one in part.
pub fn send_all<R: Wait, D: Door>(
    rt: &R,
    alloc: Global,
    door: &mut D,
    n: u8,
    from: u8,
    links: &Links,
    givers: &mut Vec<Giver<Frame>>,
    log: &mut Log,
) -> Result<(), NoMemory>
    requires centres { (D.shown door.old).centres ≡ n }
    requires links { length links.now ≡ n }
    requires from { IsBehind (D.shown door.old) from }
    requires ends { AreGivers links.now from givers.old.items }
    ensures place { D.place door.new ≡ D.place door.old }
    ensures ends { AreGivers links.now from givers.new.items }
    ensures sends { OnOk result (SendsOver n from givers.old.items givers.new.items (acting (D.shown door.old) log.old) (acting (D.shown door.new) log.new)) }
    ensures short { OnErr result (IsCutShort (acting (D.shown door.old) log.old) (acting (D.shown door.new) log.new)) }
    ensures part { OnErr result (SendsPart n from givers.old.items givers.new.items (acting (D.shown door.old) log.old) (acting (D.shown door.new) log.new)) }
{
    'others: for before in 0..n {
        let to = before + 1;
        if to == from {
            continue 'others;
        }
        send_over(rt, alloc, door, from, to, links, givers, log)?;
    }
    Ok(())
}

// The same over the link to one centre.
fn send_over<R: Wait, D: Door>(
    rt: &R,
    alloc: Global,
    door: &mut D,
    from: u8,
    to: u8,
    links: &Links,
    givers: &mut Vec<Giver<Frame>>,
    log: &mut Log,
) -> Result<(), NoMemory>
    requires from { IsBehind (D.shown door.old) from }
    requires to { IsBehind (D.shown door.old) to }
    requires row { IsAmong (length links.now) from }
    requires column { IsAmong (length links.now) to }
    requires ends { AreGivers links.now from givers.old.items }
    ensures place { D.place door.new ≡ D.place door.old }
    ensures ends { AreGivers links.now from givers.new.items }
    ensures sends { OnOk result (SendsTo from to givers.old.items givers.new.items (acting (D.shown door.old) log.old) (acting (D.shown door.new) log.new)) }
    ensures short { OnErr result (IsCutShort (acting (D.shown door.old) log.old) (acting (D.shown door.new) log.new)) }
    ensures stops { OnErr result (PutsPart to givers.old.items givers.new.items) }
{
    let link = links.between(from, to);
    send_round(
        rt,
        alloc,
        door,
        from,
        to,
        link,
        &mut givers[usize::from(to) - 1],
        log,
    )?;
    Ok(())
}
