// A phase, played by turns.
ghost use Rattle.std.specs.Prelude.{◌≡◌, ◌≤◌, false, length, nat_le, flat_map, All, IfOk, OnOk};
ghost use Rattle.std.specs.List.{filter, filter_map, range_with_len};
ghost use Rattle.ids_core.specs.declared.limits.TheConstants.{MOST_CLIENTS};
ghost use Rattle.vv_core.specs.Vectors.{centres};
ghost use Rattle.script_core.specs.Rows.{IsPhase};
ghost use Rattle.script_core.specs.Scripts.{header_of, IsInRange};
ghost use Rattle.run_book.specs.Moves.{client_turn, operator_turn, one_or_none, worker_turn, turn_moves, phase_moves};
ghost use Rattle.script_core.specs.Steps.{IsCount};
ghost use Rattle.run_table.specs.Dealing.{line_of, IsDealtPhase};
ghost use Rattle.world_core.specs.Runs.{MakesMoves};

use crate::world::World;
use ids_core::NoMemory;
use run_table::{Dealt, Work, deal};
use script_core::{Role, Section};
use std::alloc::Global;

// The numbers of so many clients, in ascending order.
fn all_clients(alloc: Global, clients: u32) -> Result<Vec<u32>, NoMemory>
    requires { clients ≤ MOST_CLIENTS }
    ensures { IfOk result (λ all. all.items ≡ range_with_len 1 clients) }
{
    let mut all = Vec::with_capacity(alloc, clients as usize)?;
    'numbers: for before in 0..clients {
        all.push(before + 1)?;
    }
    Ok(all)
}

// Leaves those clients that have a step of a turn's number.
fn leave_those_with(clients: &mut Vec<u32>, dealt: &Dealt, turn: u32)
    ensures { clients.new.items ≡ filter (λ client. nat_le turn (length (line_of dealt.now client))) clients.old.items }
{
    clients.retain(|client| turn as usize <= dealt.step_count(*client));
}

// Those of some clients that have a step of a turn's number take it, in their order.
fn play_clients(
    alloc: Global,
    world: &mut World<'_>,
    number: u32,
    section: &Section,
    dealt: &Dealt,
    turn: u32,
    clients: &[u32],
) -> Result<(), NoMemory>
    requires fresh { world.old.spent ≡ false }
    requires turn { 1 ≤ turn }
    requires phase { IsDealtPhase world.old.script section.now dealt.now }
    requires clients { All (IsCount world.old.script.clients) clients.now }
    ensures { OnOk result (MakesMoves (filter_map (client_turn number section.now turn) clients.now) world.old world.new) }
{
    'those: for client in clients {
        if let Some(step) = dealt.client_step(*client, turn) {
            world.take(alloc, *client, number, turn, &step)?;
        }
    }
    Ok(())
}

// The operator takes its step of a turn's number, where there is one.
fn play_operator(
    alloc: Global,
    world: &mut World<'_>,
    number: u32,
    section: &Section,
    dealt: &Dealt,
    turn: u32,
) -> Result<(), NoMemory>
    requires fresh { world.old.spent ≡ false }
    requires turn { 1 ≤ turn }
    requires phase { IsDealtPhase world.old.script section.now dealt.now }
    ensures { OnOk result (MakesMoves (one_or_none (operator_turn number section.now turn)) world.old world.new) }
{
    match dealt.operator_step(turn) {
        Some(step) => world.order(alloc, number, turn, &step),
        None => Ok(()),
    }
}

// The workers of a centre make their round of a turn's number; behind the last one the receiver closes.
fn play_centre(
    alloc: Global,
    world: &mut World<'_>,
    number: u32,
    turn: u32,
    centre: u8,
) -> Result<(), NoMemory>
    requires fresh { world.old.spent ≡ false }
    requires range { IsInRange world.old.script }
    requires turn { 1 ≤ turn }
    requires centre { (1 ≤ centre) × (centre ≤ world.old.script.n) }
    ensures { OnOk result (MakesMoves (worker_turn number world.old.script.rounds turn centre) world.old world.new) }
{
    let rounds = world.script.rounds;
    if turn <= rounds {
        world.work(alloc, number, turn, centre, Work::Round(Role::Sender))?;
        world.work(alloc, number, turn, centre, Work::Round(Role::Receiver))?;
        world.work(alloc, number, turn, centre, Work::Round(Role::Reporter))?;
        world.work(alloc, number, turn, centre, Work::Round(Role::Pruner))?;
    } else if turn == rounds + 1 {
        world.work(alloc, number, turn, centre, Work::Close)?;
    }
    Ok(())
}

// The workers of each centre make theirs, centre by centre.
fn play_workers(
    alloc: Global,
    world: &mut World<'_>,
    number: u32,
    turn: u32,
) -> Result<(), NoMemory>
    requires fresh { world.old.spent ≡ false }
    requires range { IsInRange world.old.script }
    requires turn { 1 ≤ turn }
    ensures { OnOk result (MakesMoves (flat_map (worker_turn number world.old.script.rounds turn) (centres world.old.script.n)) world.old world.new) }
{
    let n = world.script.n;
    'centres: for before in 0..n {
        let centre = before + 1;
        play_centre(alloc, world, number, turn, centre)?;
    }
    Ok(())
}

// A turn of a phase, in which no clients but these have a step.
fn play_turn(
    alloc: Global,
    world: &mut World<'_>,
    number: u32,
    section: &Section,
    dealt: &Dealt,
    turn: u32,
    clients: &[u32],
) -> Result<(), NoMemory>
    requires fresh { world.old.spent ≡ false }
    requires turn { 1 ≤ turn }
    requires phase { IsDealtPhase world.old.script section.now dealt.now }
    requires clients { All (IsCount world.old.script.clients) clients.now }
    requires those { filter_map (client_turn number section.now turn) clients.now ≡ filter_map (client_turn number section.now turn) (range_with_len 1 world.old.script.clients) }
    ensures { OnOk result (MakesMoves (turn_moves world.old.script number section.now turn) world.old world.new) }
{
    play_clients(alloc, world, number, section, dealt, turn, clients)?;
    play_operator(alloc, world, number, section, dealt, turn)?;
    play_workers(alloc, world, number, turn)
}

/// Plays a phase, as the section of a number, by turns. A turn is no work for the clients that have no step left.
pub(crate) fn play_phase(
    alloc: Global,
    world: &mut World<'_>,
    number: u32,
    section: &Section,
) -> Result<(), NoMemory>
    requires fresh { world.old.spent ≡ false }
    requires range { IsInRange world.old.script }
    requires phase { IsPhase (header_of world.old.script) section.now }
    ensures { OnOk result (MakesMoves (phase_moves world.old.script number section.now) world.old world.new) }
{
    let dealt = deal(alloc, world.script.clients, section)?;
    let rounds = world.script.rounds;
    let turns = (dealt.longest() as u32).max(rounds + 1);
    let mut left = all_clients(alloc, world.script.clients)?;
    'turns: for before in 0..turns {
        let turn = before + 1;
        leave_those_with(&mut left, &dealt, turn);
        play_turn(alloc, world, number, section, &dealt, turn, left.as_slice())?;
    }
    Ok(())
}
