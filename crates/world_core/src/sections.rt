// A script, played section by section.
ghost use Rattle.std.specs.Prelude.{◌≡◌, false, [], ◌∷◌, IfOk, OnOk};
ghost use Rattle.script_core.specs.Rows.{IsLine, IsSection};
ghost use Rattle.script_core.specs.Scripts.{header_of, IsInRange};
ghost use Rattle.script_core.specs.Steps.{IsStepOf};
ghost use Rattle.run_book.specs.Moves.{step_move, section_moves, moves_of};
ghost use Rattle.run_sections.specs.OneThread.{IsRunOf};
ghost use Rattle.world_core.specs.Runs.{MakesMoves, HasPlayed};

use crate::phases::play_phase;
use crate::world::World;
use ids_core::NoMemory;
use io_edge::FreeGate;
use run_book::Book;
use run_progress::{Extent, Progress};
use script_core::{Script, Section, Step, StepsSeen};
use std::alloc::Global;

// Has the step's actor take it, as the only one of the section of a number.
fn take_one(alloc: Global, world: &mut World<'_>, number: u32, step: &Step) -> Result<(), NoMemory>
    requires fresh { world.old.spent ≡ false }
    requires step { IsStepOf (header_of world.old.script) step.now }
    ensures { OnOk result (MakesMoves (step_move number step.now ∷ []) world.old world.new) }
{
    match step {
        Step::Client { client, step } => world.take(alloc, *client, number, 1, step),
        Step::Operator { step } => world.order(alloc, number, 1, step),
    }
}

// Plays a section of one step, as the section of a number.
fn play_line(
    alloc: Global,
    world: &mut World<'_>,
    number: u32,
    section: &Section,
) -> Result<(), NoMemory>
    requires fresh { world.old.spent ≡ false }
    requires line { IsLine (header_of world.old.script) section.now }
    ensures { OnOk result (MakesMoves (section_moves world.old.script number section.now) world.old world.new) }
{
    match section.steps.seen() {
        StepsSeen::One(step) => take_one(alloc, world, number, &step),
        StepsSeen::Many([step]) => take_one(alloc, world, number, step),
        StepsSeen::Many(_) => unreachable!(),
    }
}

// Plays a section, as the section of a number.
fn play_section(
    alloc: Global,
    world: &mut World<'_>,
    number: u32,
    section: &Section,
) -> Result<(), NoMemory>
    requires fresh { world.old.spent ≡ false }
    requires range { IsInRange world.old.script }
    requires section { IsSection (header_of world.old.script) section.now }
    ensures { OnOk result (MakesMoves (section_moves world.old.script number section.now) world.old world.new) }
{
    if section.phase {
        play_phase(alloc, world, number, section)
    } else {
        play_line(alloc, world, number, section)
    }
}

// The world of a script after all its sections, one after another.
fn play_all<'a, P: Progress>(
    alloc: Global,
    script: &'a Script,
    progress: &P,
) -> Result<World<'a>, NoMemory>
    requires { IsInRange script.now }
    ensures script { IfOk result (λ world. world.script ≡ script.now) }
    ensures played { IfOk result (HasPlayed (moves_of script.now)) }
{
    let mut world = World::new(alloc, script)?;
    let mut number = 0;
    let sections = script.sections.as_slice();
    let extent = Extent::of(script);
    progress.played(0, extent);
    'sections: for section in sections {
        number += 1;
        play_section(alloc, &mut world, number, section)?;
        progress.played(u64::from(number), extent);
    }
    Ok(world)
}

/// Plays a script whose numbers are in range, section by section, and a phase by turns: its run. In turn t each client
/// that has a t-th step in the phase takes it, in ascending order, then the operator, and then each centre's sender,
/// receiver, reporter and pruner make their round t, centre by centre; behind the last round the receivers make their
/// closing round. An `Err` is want of memory.
pub fn serial(alloc: Global, script: &Script) -> Result<Book, NoMemory>
    requires { IsInRange script.now }
    ensures { IfOk result (IsRunOf script.now) }
{
    serial_with(alloc, script, &FreeGate)
}

/// The same, where `progress` hears how far the play is.
pub fn serial_with<P: Progress>(
    alloc: Global,
    script: &Script,
    progress: &P,
) -> Result<Book, NoMemory>
    requires { IsInRange script.now }
    ensures { IfOk result (IsRunOf script.now) }
{
    play_all(alloc, script, progress)?.finish(alloc)
}
