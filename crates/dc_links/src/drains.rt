// The closing round of a receiver.
ghost use Rattle.std.specs.Prelude.{◌≡◌, length, OnOk, OnErr};
ghost use Rattle.dc_talk.specs.Acting.{acting, IsCutShort};
ghost use Rattle.dc_talk.specs.Doors.{IsBehind};
ghost use Rattle.script_core.specs.Links.{arrivals, inlet_closed};
ghost use Rattle.dc_links.specs.Links.{IsAmong, rows_of, AreGiverRows, AreTakers};
ghost use Rattle.dc_links.specs.Rounds.{inward, DrainsOver, DrainsFrom, TakesPart, StopsFrom};

use crate::links::Links;
use crate::takes::drain_round;
use dc_talk::{Door, Log};
use dc_worker::Inlet;
use ids_core::NoMemory;
use link_frames::Frame;
use mail_link::{Giver, Taker};
use std::alloc::Global;
use std::sync::Wait;

/// Takes from the link from each other centre of the `n` behind the door all that was put there, where no more is put,
/// and delivers to this one what comes of it and what is held, or notes what was spoilt. It is given the ends of all
/// senders. It ends when the links give what lies on them. An `Err` is want of memory, or that 2^64 - 1 frames were taken
/// from a link since its fault was set: the round was made over the links from some first centres, and over the next one
/// in part.
pub fn drain_all<R: Wait, D: Door>(
    rt: &R,
    alloc: Global,
    door: &mut D,
    n: u8,
    to: u8,
    links: &Links,
    givers: &[Vec<Giver<Frame>>],
    takers: &mut Vec<Taker<Frame>>,
    inlets: &mut Vec<Inlet>,
    log: &mut Log,
) -> Result<(), NoMemory>
    requires centres { (D.shown door.old).centres ≡ n }
    requires links { length links.now ≡ n }
    requires to { IsBehind (D.shown door.old) to }
    requires givers { AreGiverRows links.now (rows_of givers.now) }
    requires ends { AreTakers links.now to takers.old.items }
    requires inlets { length inlets.old.items ≡ n }
    ensures place { D.place door.new ≡ D.place door.old }
    ensures ends { AreTakers links.now to takers.new.items }
    ensures inlets { length inlets.new.items ≡ n }
    ensures drains { OnOk result (DrainsOver n to (rows_of givers.now) (inward takers.old.items inlets.old.items) (inward takers.new.items inlets.new.items) (acting (D.shown door.old) log.old) (acting (D.shown door.new) log.new)) }
    ensures short { OnErr result (IsCutShort (acting (D.shown door.old) log.old) (acting (D.shown door.new) log.new)) }
    ensures part { OnErr result (TakesPart arrivals inlet_closed n to (inward takers.old.items inlets.old.items) (inward takers.new.items inlets.new.items) (acting (D.shown door.old) log.old) (acting (D.shown door.new) log.new)) }
{
    'others: for before in 0..n {
        let from = before + 1;
        if from == to {
            continue 'others;
        }
        drain_over(
            rt, alloc, door, from, to, links, givers, takers, inlets, log,
        )?;
    }
    Ok(())
}

// The same over the link from one centre.
fn drain_over<R: Wait, D: Door>(
    rt: &R,
    alloc: Global,
    door: &mut D,
    from: u8,
    to: u8,
    links: &Links,
    givers: &[Vec<Giver<Frame>>],
    takers: &mut Vec<Taker<Frame>>,
    inlets: &mut Vec<Inlet>,
    log: &mut Log,
) -> Result<(), NoMemory>
    requires to { IsBehind (D.shown door.old) to }
    requires row { IsAmong (length links.now) from }
    requires column { IsAmong (length links.now) to }
    requires givers { AreGiverRows links.now (rows_of givers.now) }
    requires ends { AreTakers links.now to takers.old.items }
    requires inlets { length inlets.old.items ≡ length links.now }
    ensures place { D.place door.new ≡ D.place door.old }
    ensures ends { AreTakers links.now to takers.new.items }
    ensures inlets { length inlets.new.items ≡ length inlets.old.items }
    ensures drains { OnOk result (DrainsFrom from to (rows_of givers.now) (inward takers.old.items inlets.old.items) (inward takers.new.items inlets.new.items) (acting (D.shown door.old) log.old) (acting (D.shown door.new) log.new)) }
    ensures short { OnErr result (IsCutShort (acting (D.shown door.old) log.old) (acting (D.shown door.new) log.new)) }
    ensures stops { OnErr result (StopsFrom from to (inward takers.old.items inlets.old.items) (inward takers.new.items inlets.new.items) (acting (D.shown door.old) log.old) (acting (D.shown door.new) log.new)) }
{
    let link = links.between(from, to);
    let place = usize::from(from) - 1;
    let giver = &givers[place][usize::from(to) - 1];
    drain_round(
        rt,
        alloc,
        door,
        from,
        to,
        &mut inlets[place],
        link,
        giver,
        &mut takers[place],
        log,
    )?;
    Ok(())
}
