// All actors of a phase in threads.
ghost use Rattle.std.specs.Prelude.{◌≡◌, ◌≤◌, map, Ok, All, IfOk};
ghost use Rattle.std.specs.List.{AllZip};
ghost use Rattle.phase_actors.specs.Scenes.{IsScene};
ghost use Rattle.phase_actors.specs.Taps.{AreFeeders};
ghost use Rattle.phase_actors.specs.Actors.{IsCallerOf, HasOperated, IsBlockOf, HasBlockPlayed};
ghost use Rattle.phase_play.specs.Casts.{IsCrewOf, HasCrewPlayed, IsClients, HaveClientsPlayed, IsCast, AreOpen, HaveAllPlayed};

use crate::blocks::{Clients, cut, part_blocks, with_readers};
use crate::crews::{Crew, begin_crews, end_crews};
use crate::gathering::{gather, put_back};
use crate::idle::{idle_crews, is_idle, play_idle};
use ids_core::NoMemory;
use io_edge::Gate;
use phase_actors::{Block, Caller, Pace, Player, Scene, operate_through, play_clients};
use read_tap::{TapFeeder, TapReader};
use std::alloc::Global;
use std::sync::Wait;
use std::thread::{Threads, join, map_vec, scope, scope_env};

// How many clients each thread has at least where those at one centre are brought together. A thread with fewer seldom
// waits for others, and what it waits holds its clients back until the workers have come on.
const FEWEST_GATHERED: usize = 4;

/// The actors of a phase: the operator, the clients in order, and the workers of each centre.
#[derive(Drop)]
pub struct Cast {
    pub operator: Caller,
    pub clients: Vec<Player>,
    pub crews: Vec<Crew>,
}

/// The taps of a phase: the feeder of each in the order of the centres, and for each thread of clients a reader of each.
#[derive(Drop)]
pub struct Taps<'a, R: Wait> {
    pub feeders: Vec<TapFeeder<'a, R>>,
    pub rows: Vec<Vec<TapReader>>,
}

// What the operator gives at its end: its caller, and the feeders.
type Operated<'a, R> = Result<(Caller, Vec<TapFeeder<'a, R>>), NoMemory>;

// What all threads gave, where none of them wants memory.
fn all_of<X: Drop>(alloc: Global, results: Vec<Result<X, NoMemory>>) -> Result<Vec<X>, NoMemory>
    ensures { IfOk result (λ all. map Ok all.items ≡ results.items) }
{
    let mut all = Vec::with_capacity(alloc, results.len())?;
    'results: for result in results {
        all.push(result?)?;
    }
    Ok(all)
}

// The clients in blocks, each in a thread of its own.
fn play_blocks<R: Threads + Wait + Sync, G: Gate>(
    rt: &R,
    alloc: Global,
    scene: Scene<'_>,
    gate: &G,
    pace: &Pace,
    clients: Clients,
) -> Result<Clients, NoMemory>
    requires scene { IsScene scene }
    requires clients { IsClients scene clients }
    ensures { IfOk result (HaveClientsPlayed scene.entry clients) }
{
    let Clients { players, rows } = clients;
    let parts = cut(alloc, players, scene.script.threads)?;
    let blocks = with_readers(alloc, parts, rows)?;
    let each = |block: Block| -> Result<Block, NoMemory>
        requires { IsScene scene × IsBlockOf scene block }
        ensures { IfOk result (HasBlockPlayed scene.entry block) }
    { play_clients(rt, alloc, scene, gate, pace, block) };
    let results = map_vec(rt, blocks, &each)?;
    part_blocks(alloc, all_of(alloc, results)?)
}

// The clients in blocks, those at one centre in one thread as far as may be: a thread whose client asks a centre waits
// there for the clients of other threads.
fn play_gathered<R: Threads + Wait + Sync, G: Gate>(
    rt: &R,
    alloc: Global,
    scene: Scene<'_>,
    gate: &G,
    pace: &Pace,
    clients: Clients,
) -> Result<Clients, NoMemory>
    requires scene { IsScene scene }
    requires clients { IsClients scene clients }
    ensures { IfOk result (HaveClientsPlayed scene.entry clients) }
{
    let Clients {
        players: mut gathered,
        rows,
    } = clients;
    let swaps = gather(alloc, &mut gathered)?;
    let together = Clients {
        players: gathered,
        rows,
    };
    let Clients {
        players: mut played,
        rows,
    } = play_blocks(rt, alloc, scene, gate, pace, together)?;
    put_back(&mut played, swaps);
    Ok(Clients {
        players: played,
        rows,
    })
}

// The clients, in so many threads.
fn play_players<R: Threads + Wait + Sync, G: Gate>(
    rt: &R,
    alloc: Global,
    scene: Scene<'_>,
    gate: &G,
    pace: &Pace,
    clients: Clients,
) -> Result<Clients, NoMemory>
    requires scene { IsScene scene }
    requires clients { IsClients scene clients }
    ensures { IfOk result (HaveClientsPlayed scene.entry clients) }
{
    if clients.players.len() / FEWEST_GATHERED < scene.script.threads as usize {
        play_blocks(rt, alloc, scene, gate, pace, clients)
    } else {
        play_gathered(rt, alloc, scene, gate, pace, clients)
    }
}

// The operator and the workers of all centres: where there are rounds, these begin in threads of their own, and then the
// operator takes its steps in this one.
fn play_others<'f, R: Threads + Wait + Sync, G: Gate>(
    rt: &R,
    alloc: Global,
    scene: Scene<'_>,
    gate: &G,
    pace: &Pace,
    operator: Caller,
    feeders: Vec<TapFeeder<'f, R>>,
    crews: Vec<Crew>,
) -> (Operated<'f, R>, Result<Vec<Crew>, NoMemory>)
    requires scene { IsScene scene }
    requires operator { IsCallerOf scene operator }
    requires feeders { AreFeeders scene.script.now.n scene.taps.now feeders.items }
    requires crews { All (IsCrewOf scene) crews.items }
    ensures operator { IfOk result.0 (λ done. HasOperated scene.entry operator feeders.entry.items done.0 done.1.items) }
    ensures crews { IfOk result.1 (λ played. AllZip (HasCrewPlayed scene.entry) crews.items played.items) }
{
    if scene.script.rounds == 0 {
        let operated = operate_through(rt, alloc, scene, gate, operator, feeders);
        return (operated, idle_crews(rt, alloc, scene, gate, pace, crews));
    }
    let Scene {
        script,
        section,
        number,
        dealt,
        hosts,
        links,
        taps,
    } = scene;
    scope(
        scope_env(),
        rt,
        move |within| -> (Operated<'_, R>, Result<Vec<Crew>, NoMemory>)
            requires { IsScene (record { script = script; section = section; number = number; dealt = dealt; hosts = hosts; links = links; taps = taps }) × IsCallerOf (record { script = script; section = section; number = number; dealt = dealt; hosts = hosts; links = links; taps = taps }) operator × AreFeeders script.now.n taps.now feeders.items × All (IsCrewOf (record { script = script; section = section; number = number; dealt = dealt; hosts = hosts; links = links; taps = taps })) crews.items }
            ensures { IfOk result.0 (λ done. HasOperated (record { script = script.entry; section = section.entry; number = number; dealt = dealt.entry; hosts = hosts.entry; links = links.entry; taps = taps.entry }) operator feeders.entry.items done.0 done.1.items) × IfOk result.1 (λ played. AllZip (HasCrewPlayed (record { script = script.entry; section = section.entry; number = number; dealt = dealt.entry; hosts = hosts.entry; links = links.entry; taps = taps.entry })) crews.items played.items) }
        {
            let scene = Scene {
                script,
                section,
                number,
                dealt,
                hosts,
                links,
                taps,
            };
            let begun = pace.ended(begin_crews(rt, alloc, within, scene, gate, pace, crews));
            let operated = operate_through(rt, alloc, scene, gate, operator, feeders);
            let crews = match begun {
                Ok(begun) => end_crews(rt, alloc, begun),
                Err(NoMemory) => Err(NoMemory),
            };
            (operated, crews)
        },
    )
}

/// What all actors of a phase do in its rounds and turns, at once: some threads for the clients, one for the operator, and
/// four for each centre, as many of them as can be made. The operator has the feeders of the taps, and each thread of
/// clients has readers of its own. A phase in which nobody has anything to do is played in the thread of the caller, and
/// workers without rounds take no threads. After an `Err`, want of memory, their passes and ends are gone, and so are the
/// taps.
pub fn play_in_threads<'f, R: Threads + Wait + Sync, G: Gate>(
    rt: &R,
    alloc: Global,
    scene: Scene<'_>,
    gate: &G,
    cast: Cast,
    opened: Taps<'f, R>,
) -> Result<(Cast, Taps<'f, R>), NoMemory>
    requires scene { IsScene scene }
    requires cast { IsCast scene cast }
    requires opened { AreOpen scene cast opened.feeders.items opened.rows.items }
    ensures { IfOk result (λ done. HaveAllPlayed scene.entry cast opened.entry.feeders.items opened.entry.rows.items done.0 done.1.feeders.items done.1.rows.items) }
{
    if is_idle(scene) {
        return play_idle(rt, alloc, scene, gate, cast, opened);
    }
    let Cast {
        operator,
        clients,
        crews,
    } = cast;
    let Taps { feeders, rows } = opened;
    let clients = Clients {
        players: clients,
        rows,
    };
    let Scene {
        script,
        section,
        number,
        dealt,
        hosts,
        links,
        taps,
    } = scene;
    let orders = dealt.operator_line().len();
    let steps = section.steps.len().saturating_sub(orders);
    let made = Pace::new(steps as u64, script.rounds, script.n);
    let pace = &made;
    let players = move || -> Result<Clients, NoMemory>
        requires { IsScene (record { script = script; section = section; number = number; dealt = dealt; hosts = hosts; links = links; taps = taps }) × IsClients (record { script = script; section = section; number = number; dealt = dealt; hosts = hosts; links = links; taps = taps }) clients }
        ensures { IfOk result (HaveClientsPlayed (record { script = script.entry; section = section.entry; number = number; dealt = dealt.entry; hosts = hosts.entry; links = links.entry; taps = taps.entry }) clients) }
    {
        let scene = Scene {
            script,
            section,
            number,
            dealt,
            hosts,
            links,
            taps,
        };
        let played = play_players(rt, alloc, scene, gate, pace, clients);
        pace.finish();
        played
    };
    let others = move || -> (Operated<'_, R>, Result<Vec<Crew>, NoMemory>)
        requires { IsScene (record { script = script; section = section; number = number; dealt = dealt; hosts = hosts; links = links; taps = taps }) × IsCallerOf (record { script = script; section = section; number = number; dealt = dealt; hosts = hosts; links = links; taps = taps }) operator × AreFeeders script.now.n taps.now feeders.items × All (IsCrewOf (record { script = script; section = section; number = number; dealt = dealt; hosts = hosts; links = links; taps = taps })) crews.items }
        ensures { IfOk result.0 (λ done. HasOperated (record { script = script.entry; section = section.entry; number = number; dealt = dealt.entry; hosts = hosts.entry; links = links.entry; taps = taps.entry }) operator feeders.entry.items done.0 done.1.items) × IfOk result.1 (λ played. AllZip (HasCrewPlayed (record { script = script.entry; section = section.entry; number = number; dealt = dealt.entry; hosts = hosts.entry; links = links.entry; taps = taps.entry })) crews.items played.items) }
    {
        let scene = Scene {
            script,
            section,
            number,
            dealt,
            hosts,
            links,
            taps,
        };
        play_others(rt, alloc, scene, gate, pace, operator, feeders, crews)
    };
    let ((operated, crews), played) = join(rt, others, players);
    let (operator, feeders) = operated?;
    let Clients {
        players: clients,
        rows,
    } = played?;
    let crews = crews?;
    Ok((
        Cast {
            operator,
            clients,
            crews,
        },
        Taps { feeders, rows },
    ))
}
