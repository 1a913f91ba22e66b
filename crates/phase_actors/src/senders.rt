// The sender of a centre in a phase.
ghost use Rattle.std.specs.Prelude.{◌≡◌, ◌≤◌, length, IfOk, OnOk};
ghost use Rattle.ids_core.specs.declared.limits.TheConstants.{MOST_CENTRES};
ghost use Rattle.script_core.specs.Steps.{IsCount};
ghost use Rattle.dc_talk.specs.Acting.{acting};
ghost use Rattle.dc_talk.specs.Doors.{IsBehind};
ghost use Rattle.dc_links.specs.Links.{AreGivers};
ghost use Rattle.phase_actors.specs.Scenes.{IsScene};
ghost use Rattle.phase_actors.specs.Workers.{PlaysSender};
ghost use Rattle.phase_actors.specs.Actors.{IsSenderOf, HasSent};

use crate::callers::Caller;
use crate::pace::{Pace, Worker};
use crate::scene::Scene;
use dc_host::HostDoor;
use dc_links::{Links, send_all};
use dc_talk::{Door, Log};
use ids_core::NoMemory;
use io_edge::Gate;
use link_frames::Frame;
use mail_link::Giver;
use std::alloc::Global;
use std::sync::Wait;

/// A sender as a caller, with the ends of the links from its centre, one to each centre in order.
#[derive(Drop)]
pub struct SenderEnd {
    pub caller: Caller,
    pub givers: Vec<Giver<Frame>>,
}

// The rounds of the sender of a centre through a door.
fn send_rounds<R: Wait, D: Door>(
    rt: &R,
    alloc: Global,
    pace: &Pace,
    door: &mut D,
    n: u8,
    section: u32,
    rounds: u32,
    centre: u8,
    links: &Links,
    givers: &mut Vec<Giver<Frame>>,
    log: &mut Log,
) -> Result<(), NoMemory>
    requires centres { (D.shown door.old).centres ≡ n }
    requires few { n ≤ MOST_CENTRES }
    requires links { length links.now ≡ n }
    requires centre { IsBehind (D.shown door.old) centre }
    requires ends { AreGivers links.now centre givers.old.items }
    ensures place { D.place door.new ≡ D.place door.old }
    ensures ends { AreGivers links.now centre givers.new.items }
    ensures plays { OnOk result (PlaysSender n centre section rounds (record { acting = acting (D.shown door.old) log.old; givers = givers.old.items }) (record { acting = acting (D.shown door.new) log.new; givers = givers.new.items })) }
{
    'rounds: for before in 0..rounds {
        pace.wait_for(rt, Worker::Sender, centre, before + 1);
        log.set(section, before + 1);
        send_all(rt, alloc, door, n, centre, links, givers, log)?;
        pace.has_made(Worker::Sender, centre);
    }
    Ok(())
}

/// The rounds of the sender of a centre over its hosts, as a caller of its own. After an `Err`, want of memory, its
/// passes and ends are gone.
pub fn send_through<R: Wait, G: Gate>(
    rt: &R,
    alloc: Global,
    scene: Scene<'_>,
    gate: &G,
    pace: &Pace,
    centre: u8,
    end: SenderEnd,
) -> Result<SenderEnd, NoMemory>
    requires scene { IsScene scene }
    requires centre { IsCount scene.script.now.n centre }
    requires sender { IsSenderOf scene centre end }
    ensures { IfOk result (HasSent scene.entry centre end) }
{
    let SenderEnd { caller, mut givers } = end;
    let Caller { row, mut log } = caller;
    let script = scene.script;
    let mut door = HostDoor::new(rt, scene.hosts, row, log.actor(), gate);
    send_rounds(
        rt,
        alloc,
        pace,
        &mut door,
        script.n,
        scene.number,
        script.rounds,
        centre,
        scene.links,
        &mut givers,
        &mut log,
    )?;
    let row = door.part();
    Ok(SenderEnd {
        caller: Caller { row, log },
        givers,
    })
}
