// A round of a receiver.
ghost use Rattle.std.specs.Prelude.{◌≡◌, length, OnOk, OnErr};
ghost use Rattle.dc_talk.specs.Acting.{acting, IsCutShort};
ghost use Rattle.dc_talk.specs.Doors.{IsBehind};
ghost use Rattle.script_core.specs.Links.{arrived, inlet_after};
ghost use Rattle.dc_links.specs.Links.{IsAmong, AreTakers};
ghost use Rattle.dc_links.specs.Rounds.{inward, ReceivesOver, ReceivesFrom, TakesPart, StopsFrom};

use crate::links::Links;
use crate::takes::take_round;
use dc_talk::{Door, Log};
use dc_worker::Inlet;
use ids_core::NoMemory;
use link_frames::Frame;
use mail_link::Taker;
use std::alloc::Global;
use std::sync::Wait;

/// Takes from the link from each other centre of the `n` behind the door at most 64 records, and delivers to this one
/// what comes of them, or notes what was spoilt. An `Err` is want of memory, or that 2^64 - 1 frames were taken from a
/// link since its fault was set: the round was made over the links from some first centres, and over the next one in part.
pub fn receive_all<R: Wait, D: Door>(
    rt: &R,
    alloc: Global,
    door: &mut D,
    n: u8,
    to: u8,
    links: &Links,
    takers: &mut Vec<Taker<Frame>>,
    inlets: &mut Vec<Inlet>,
    log: &mut Log,
) -> Result<(), NoMemory>
    requires centres { (D.shown door.old).centres ≡ n }
    requires links { length links.now ≡ n }
    requires to { IsBehind (D.shown door.old) to }
    requires ends { AreTakers links.now to takers.old.items }
    requires inlets { length inlets.old.items ≡ n }
    ensures place { D.place door.new ≡ D.place door.old }
    ensures ends { AreTakers links.now to takers.new.items }
    ensures inlets { length inlets.new.items ≡ n }
    ensures receives { OnOk result (ReceivesOver n to (inward takers.old.items inlets.old.items) (inward takers.new.items inlets.new.items) (acting (D.shown door.old) log.old) (acting (D.shown door.new) log.new)) }
    ensures short { OnErr result (IsCutShort (acting (D.shown door.old) log.old) (acting (D.shown door.new) log.new)) }
    ensures part { OnErr result (TakesPart arrived inlet_after n to (inward takers.old.items inlets.old.items) (inward takers.new.items inlets.new.items) (acting (D.shown door.old) log.old) (acting (D.shown door.new) log.new)) }
{
    'others: for before in 0..n {
        let from = before + 1;
        if from == to {
            continue 'others;
        }
        receive_over(rt, alloc, door, from, to, links, takers, inlets, log)?;
    }
    Ok(())
}

// The same over the link from one centre.
fn receive_over<R: Wait, D: Door>(
    rt: &R,
    alloc: Global,
    door: &mut D,
    from: u8,
    to: u8,
    links: &Links,
    takers: &mut Vec<Taker<Frame>>,
    inlets: &mut Vec<Inlet>,
    log: &mut Log,
) -> Result<(), NoMemory>
    requires to { IsBehind (D.shown door.old) to }
    requires row { IsAmong (length links.now) from }
    requires column { IsAmong (length links.now) to }
    requires ends { AreTakers links.now to takers.old.items }
    requires inlets { length inlets.old.items ≡ length links.now }
    ensures place { D.place door.new ≡ D.place door.old }
    ensures ends { AreTakers links.now to takers.new.items }
    ensures inlets { length inlets.new.items ≡ length inlets.old.items }
    ensures receives { OnOk result (ReceivesFrom from to (inward takers.old.items inlets.old.items) (inward takers.new.items inlets.new.items) (acting (D.shown door.old) log.old) (acting (D.shown door.new) log.new)) }
    ensures short { OnErr result (IsCutShort (acting (D.shown door.old) log.old) (acting (D.shown door.new) log.new)) }
    ensures stops { OnErr result (StopsFrom from to (inward takers.old.items inlets.old.items) (inward takers.new.items inlets.new.items) (acting (D.shown door.old) log.old) (acting (D.shown door.new) log.new)) }
{
    let link = links.between(from, to);
    let place = usize::from(from) - 1;
    take_round(
        rt,
        alloc,
        door,
        from,
        to,
        &mut inlets[place],
        link,
        &mut takers[place],
        log,
    )?;
    Ok(())
}
