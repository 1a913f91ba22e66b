// The closing rounds of the receivers of a phase, and the parts of its actors behind them.
ghost use Rattle.std.specs.Prelude.{◌≡◌, map, All, IfOk, OnOk};
ghost use Rattle.std.specs.List.{range_with_len};
ghost use Rattle.vv_core.specs.Vectors.{centres};
ghost use Rattle.dc_links.specs.Links.{AreGiverRows, rows_of};
ghost use Rattle.phase_actors.specs.Scenes.{IsScene};
ghost use Rattle.phase_play.specs.Casts.{IsCrewOf};
ghost use Rattle.thread_run.specs.Closing.{IsHalfOf, AreHalves, HasClosedHalf, HaveClosed, HasClients};
ghost use Rattle.thread_run.specs.Casts.{HaveParted};

use crate::parts::Parts;
use ids_core::NoMemory;
use io_edge::Gate;
use link_frames::Frame;
use mail_link::Giver;
use phase_actors::{Caller, Player, ReceiverEnd, Scene, close_over};
use phase_play::{Cast, Crew};
use std::alloc::Global;
use std::sync::Wait;

// The workers of a centre without the ends at which its sender puts.
#[derive(Drop)]
pub(crate) struct Half {
    pub(crate) centre: u8,
    pub(crate) sender: Caller,
    pub(crate) receiver: ReceiverEnd,
    pub(crate) reporter: Caller,
    pub(crate) pruner: Caller,
}

// The workers of all centres, and apart from them the ends at which the senders put.
#[derive(Drop)]
pub(crate) struct Halves {
    pub(crate) halves: Vec<Half>,
    pub(crate) givers: Vec<Vec<Giver<Frame>>>,
}

// Takes the ends of the senders off.
fn halve(alloc: Global, crews: Vec<Crew>) -> Result<Halves, NoMemory>
    ensures { IfOk result (AreHalves crews.items) }
{
    let mut halves = Vec::with_capacity(alloc, crews.len())?;
    let mut givers = Vec::with_capacity(alloc, crews.len())?;
    'crews: for crew in crews {
        let Crew {
            centre,
            sender,
            receiver,
            reporter,
            pruner,
        } = crew;
        givers.push(sender.givers)?;
        halves.push(Half {
            centre,
            sender: sender.caller,
            receiver,
            reporter,
            pruner,
        })?;
    }
    Ok(Halves { halves, givers })
}

// The closing round of a centre's receiver, and the parts of its workers behind those that are there.
fn close_half<R: Wait, G: Gate>(
    rt: &R,
    alloc: Global,
    scene: Scene<'_>,
    gate: &G,
    givers: &[Vec<Giver<Frame>>],
    parts: &mut Parts,
    half: Half,
) -> Result<(), NoMemory>
    requires scene { IsScene scene }
    requires givers { AreGiverRows scene.links.now (rows_of givers.now) }
    requires half { IsHalfOf scene half }
    ensures { OnOk result (HasClosedHalf scene.entry (rows_of givers.now) parts.old half parts.new) }
{
    let Half {
        centre,
        sender,
        receiver,
        reporter,
        pruner,
    } = half;
    let ReceiverEnd {
        caller,
        takers,
        inlets,
    } = close_over(rt, alloc, scene, gate, centre, givers, receiver)?;
    parts.add(sender)?;
    parts.add(caller)?;
    parts.add(reporter)?;
    parts.add(pruner)?;
    parts.takers.push(takers)?;
    parts.inlets.push(inlets)?;
    Ok(())
}

// The parts of clients behind those that are there.
fn part_clients(parts: &mut Parts, players: Vec<Player>) -> Result<(), NoMemory>
    ensures { OnOk result (HasClients parts.old players.items parts.new) }
{
    'players: for player in players {
        parts.add(player.caller)?;
        parts.stubs.push(player.stub)?;
    }
    Ok(())
}

// The closing rounds of all receivers, centre by centre.
fn close_halves<R: Wait, G: Gate>(
    rt: &R,
    alloc: Global,
    scene: Scene<'_>,
    gate: &G,
    givers: &[Vec<Giver<Frame>>],
    parts: &mut Parts,
    halves: Vec<Half>,
) -> Result<(), NoMemory>
    requires scene { IsScene scene }
    requires givers { AreGiverRows scene.links.now (rows_of givers.now) }
    requires halves { All (IsHalfOf scene) halves.items }
    ensures { OnOk result (HaveClosed scene.entry (rows_of givers.now) parts.old halves.items parts.new) }
{
    'halves: for half in halves {
        close_half(rt, alloc, scene, gate, givers, parts, half)?;
    }
    Ok(())
}

/// Has each receiver make its closing round, once the rounds of all senders are over, and takes the actors apart. An
/// `Err` is want of memory: the parts are gone.
pub(crate) fn close_and_part<R: Wait, G: Gate>(
    rt: &R,
    alloc: Global,
    scene: Scene<'_>,
    gate: &G,
    cast: Cast,
) -> Result<Parts, NoMemory>
    requires scene { IsScene scene }
    requires crews { All (IsCrewOf scene) cast.crews.items }
    requires centres { map (λ crew. crew.centre) cast.crews.items ≡ centres scene.script.now.n }
    requires clients { map (λ player. player.client) cast.clients.items ≡ range_with_len 1 scene.script.now.clients }
    ensures { IfOk result (HaveParted scene.entry scene.entry.script.now.n scene.entry.script.now.clients cast) }
{
    let Cast {
        operator,
        clients,
        crews,
    } = cast;
    let mut parts = Parts::new(alloc);
    parts.add(operator)?;
    part_clients(&mut parts, clients)?;
    let Halves { halves, givers } = halve(alloc, crews)?;
    close_halves(rt, alloc, scene, gate, &givers, &mut parts, halves)?;
    parts.givers = givers;
    Ok(parts)
}
