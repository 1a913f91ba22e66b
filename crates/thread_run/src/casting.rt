// The actors of a phase, each with its parts.
ghost use Rattle.std.specs.Prelude.{◌≡◌, ◌≤◌, ◌+◌, ◌*◌, ◌++◌, ◌∷◌, length, IfOk};
ghost use Rattle.ids_core.specs.declared.limits.TheConstants.{MOST_CENTRES, MOST_CLIENTS};
ghost use Rattle.thread_run.specs.Casts.{crew_callers, IsCastOf, AreCallersOf, ArePlayersOf, AreCrewsOf};

use crate::parts::Parts;
use client_stub::Stub;
use dc_centre::Centre;
use dc_talk::Log;
use dc_worker::Inlet;
use host_lock::Pass;
use ids_core::NoMemory;
use link_frames::Frame;
use mail_link::{Giver, Taker};
use phase_actors::{Caller, Player, ReceiverEnd, SenderEnd};
use phase_play::{Cast, Crew};
use std::alloc::Global;
use std::collections::VecDeque;

// The callers, each with its passes and its log.
fn callers_of(
    alloc: Global,
    rows: Vec<Vec<Pass<Centre>>>,
    logs: Vec<Log>,
) -> Result<Vec<Caller>, NoMemory>
    requires { length rows.items ≡ length logs.items }
    ensures { IfOk result (λ callers. AreCallersOf rows.items logs.items callers.items) }
{
    let mut rows = VecDeque::from(rows);
    let mut callers = Vec::with_capacity(alloc, logs.len())?;
    'logs: for log in logs {
        match rows.pop_front() {
            Some(row) => callers.push(Caller { row, log })?,
            None => unreachable!(),
        }
    }
    Ok(callers)
}

// The clients, each with its caller and its stub, numbered from 1.
fn players_of(
    alloc: Global,
    callers: Vec<Caller>,
    stubs: Vec<Stub>,
) -> Result<Vec<Player>, NoMemory>
    requires number { length callers.items ≡ length stubs.items }
    requires few { length stubs.items ≤ MOST_CLIENTS }
    ensures { IfOk result (λ players. ArePlayersOf callers.items stubs.items players.items) }
{
    let mut callers = VecDeque::from(callers);
    let mut players = Vec::with_capacity(alloc, stubs.len())?;
    let mut client = 0;
    'stubs: for stub in stubs {
        client += 1;
        match callers.pop_front() {
            Some(caller) => players.push(Player {
                client,
                caller,
                stub,
            })?,
            None => unreachable!(),
        }
    }
    Ok(players)
}

// What is left of the parts of workers.
#[derive(Drop)]
pub(crate) struct Workers {
    callers: Vec<Caller>,
    givers: Vec<Vec<Giver<Frame>>>,
    takers: Vec<Vec<Taker<Frame>>>,
    inlets: Vec<Vec<Inlet>>,
}

// The workers of a centre, off the front of what is left.
fn next_crew(centre: u8, workers: &mut Workers) -> Crew
    requires callers { 4 ≤ length workers.old.callers.items }
    requires givers { 1 ≤ length workers.old.givers.items }
    requires takers { 1 ≤ length workers.old.takers.items }
    requires inlets { 1 ≤ length workers.old.inlets.items }
    ensures centre { result.centre ≡ centre }
    ensures callers { workers.old.callers.items ≡ crew_callers result ++ workers.new.callers.items }
    ensures givers { workers.old.givers.items ≡ result.sender.givers ∷ workers.new.givers.items }
    ensures takers { workers.old.takers.items ≡ result.receiver.takers ∷ workers.new.takers.items }
    ensures inlets { workers.old.inlets.items ≡ result.receiver.inlets ∷ workers.new.inlets.items }
{
    let sender = SenderEnd {
        caller: workers.callers.remove(0),
        givers: workers.givers.remove(0),
    };
    let receiver = ReceiverEnd {
        caller: workers.callers.remove(0),
        takers: workers.takers.remove(0),
        inlets: workers.inlets.remove(0),
    };
    let reporter = workers.callers.remove(0);
    let pruner = workers.callers.remove(0);
    Crew {
        centre,
        sender,
        receiver,
        reporter,
        pruner,
    }
}

// The workers of `n` centres.
fn crews_of(alloc: Global, n: u8, workers: Workers) -> Result<Vec<Crew>, NoMemory>
    requires few { n ≤ MOST_CENTRES }
    requires callers { length workers.callers.items ≡ 4 * n }
    requires givers { length workers.givers.items ≡ n }
    requires takers { length workers.takers.items ≡ n }
    requires inlets { length workers.inlets.items ≡ n }
    ensures { IfOk result (λ crews. AreCrewsOf n workers.callers.items workers.givers.items workers.takers.items workers.inlets.items crews.items) }
{
    let mut left = workers;
    let mut crews = Vec::with_capacity(alloc, usize::from(n))?;
    'centres: for before in 0..n {
        crews.push(next_crew(before + 1, &mut left))?;
    }
    Ok(crews)
}

/// The actors that have these parts, of so many clients and `n` centres. An `Err` is want of memory: the parts are gone.
pub(crate) fn cast_of(alloc: Global, n: u8, clients: u32, parts: Parts) -> Result<Cast, NoMemory>
    requires centres { n ≤ MOST_CENTRES }
    requires clients { clients ≤ MOST_CLIENTS }
    requires rows { length parts.rows.items ≡ 1 + clients + 4 * n }
    requires logs { length parts.logs.items ≡ 1 + clients + 4 * n }
    requires stubs { length parts.stubs.items ≡ clients }
    requires givers { length parts.givers.items ≡ n }
    requires takers { length parts.takers.items ≡ n }
    requires inlets { length parts.inlets.items ≡ n }
    ensures { IfOk result (IsCastOf n clients parts) }
{
    let Parts {
        rows,
        logs,
        stubs,
        givers,
        takers,
        inlets,
    } = parts;
    let mut callers = callers_of(alloc, rows, logs)?;
    let workers = Workers {
        callers: callers.split_off(1 + clients as usize)?,
        givers,
        takers,
        inlets,
    };
    let players = callers.split_off(1)?;
    let operator = callers.remove(0);
    Ok(Cast {
        operator,
        clients: players_of(alloc, players, stubs)?,
        crews: crews_of(alloc, n, workers)?,
    })
}
