// The receiver of a centre in a phase, and behind it.
ghost use Rattle.std.specs.Prelude.{◌≡◌, ◌≤◌, replicate, length, IfOk, OnOk};
ghost use Rattle.ids_core.specs.declared.limits.TheConstants.{MOST_CENTRES};
ghost use Rattle.dc_talk.specs.Acting.{acting};
ghost use Rattle.dc_talk.specs.Doors.{IsBehind};
ghost use Rattle.script_core.specs.Steps.{IsCount};
ghost use Rattle.dc_links.specs.Links.{AreTakers, AreGiverRows, rows_of};
ghost use Rattle.run_sections.specs.Orders.{takes_some};
ghost use Rattle.phase_actors.specs.Scenes.{IsScene};
ghost use Rattle.phase_actors.specs.Workers.{PlaysReceiver};
ghost use Rattle.phase_actors.specs.Actors.{IsReceiverOf, HasReceived, HasClosed};

use crate::callers::Caller;
use crate::pace::{Pace, Worker};
use crate::scene::Scene;
use dc_host::HostDoor;
use dc_links::{Links, drain_all, receive_all};
use dc_talk::{Door, Log};
use dc_worker::Inlet;
use ids_core::NoMemory;
use io_edge::Gate;
use link_frames::Frame;
use mail_link::{Giver, Taker};
use std::alloc::Global;
use std::sync::Wait;

/// A receiver as a caller, with the ends of the links to its centre and the fault of each with what it holds, one from
/// each centre in order.
#[derive(Drop)]
pub struct ReceiverEnd {
    pub caller: Caller,
    pub takers: Vec<Taker<Frame>>,
    pub inlets: Vec<Inlet>,
}

// The rounds of the receiver of a centre through a door.
fn receive_rounds<R: Wait, D: Door>(
    rt: &R,
    alloc: Global,
    pace: &Pace,
    door: &mut D,
    n: u8,
    section: u32,
    rounds: u32,
    centre: u8,
    links: &Links,
    takers: &mut Vec<Taker<Frame>>,
    inlets: &mut Vec<Inlet>,
    log: &mut Log,
) -> Result<(), NoMemory>
    requires centres { (D.shown door.old).centres ≡ n }
    requires few { n ≤ MOST_CENTRES }
    requires links { length links.now ≡ n }
    requires centre { IsBehind (D.shown door.old) centre }
    requires ends { AreTakers links.now centre takers.old.items }
    requires inlets { length inlets.old.items ≡ n }
    ensures place { D.place door.new ≡ D.place door.old }
    ensures ends { AreTakers links.now centre takers.new.items }
    ensures inlets { length inlets.new.items ≡ n }
    ensures plays { OnOk result (PlaysReceiver n centre section (replicate rounds takes_some) (record { acting = acting (D.shown door.old) log.old; takers = takers.old.items; inlets = inlets.old.items }) (record { acting = acting (D.shown door.new) log.new; takers = takers.new.items; inlets = inlets.new.items })) }
{
    'rounds: for before in 0..rounds {
        pace.wait_for(rt, Worker::Receiver, centre, before + 1);
        log.set(section, before + 1);
        receive_all(rt, alloc, door, n, centre, links, takers, inlets, log)?;
        pace.has_made(Worker::Receiver, centre);
    }
    Ok(())
}

/// The rounds of the receiver of a centre over its hosts, as a caller of its own. After an `Err`, want of memory, its
/// passes and ends are gone.
pub fn receive_through<R: Wait, G: Gate>(
    rt: &R,
    alloc: Global,
    scene: Scene<'_>,
    gate: &G,
    pace: &Pace,
    centre: u8,
    end: ReceiverEnd,
) -> Result<ReceiverEnd, NoMemory>
    requires scene { IsScene scene }
    requires centre { IsCount scene.script.now.n centre }
    requires receiver { IsReceiverOf scene centre end }
    ensures { IfOk result (HasReceived scene.entry centre end) }
{
    let ReceiverEnd {
        caller,
        mut takers,
        mut inlets,
    } = end;
    let Caller { row, mut log } = caller;
    let script = scene.script;
    let mut door = HostDoor::new(rt, scene.hosts, row, log.actor(), gate);
    receive_rounds(
        rt,
        alloc,
        pace,
        &mut door,
        script.n,
        scene.number,
        script.rounds,
        centre,
        scene.links,
        &mut takers,
        &mut inlets,
        &mut log,
    )?;
    let row = door.part();
    Ok(ReceiverEnd {
        caller: Caller { row, log },
        takers,
        inlets,
    })
}

/// The closing round of the receiver of a centre, once no sender puts any more, through a new door of its passes. It is
/// given the ends of all senders. After an `Err`, want of memory, its passes and ends are gone.
pub fn close_over<R: Wait, G: Gate>(
    rt: &R,
    alloc: Global,
    scene: Scene<'_>,
    gate: &G,
    centre: u8,
    givers: &[Vec<Giver<Frame>>],
    end: ReceiverEnd,
) -> Result<ReceiverEnd, NoMemory>
    requires scene { IsScene scene }
    requires centre { IsCount scene.script.now.n centre }
    requires givers { AreGiverRows scene.links.now (rows_of givers.now) }
    requires receiver { IsReceiverOf scene centre end }
    ensures { IfOk result (HasClosed scene.entry centre (rows_of givers.now) end) }
{
    let ReceiverEnd {
        caller,
        mut takers,
        mut inlets,
    } = end;
    let Caller { row, mut log } = caller;
    let script = scene.script;
    let mut door = HostDoor::new(rt, scene.hosts, row, log.actor(), gate);
    log.set(scene.number, script.rounds + 1);
    drain_all(
        rt,
        alloc,
        &mut door,
        script.n,
        centre,
        scene.links,
        givers,
        &mut takers,
        &mut inlets,
        &mut log,
    )?;
    let row = door.part();
    Ok(ReceiverEnd {
        caller: Caller { row, log },
        takers,
        inlets,
    })
}
