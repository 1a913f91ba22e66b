// A script, section by section.
ghost use Rattle.std.specs.Prelude.{◌≡◌, map, IfOk, OnOk};
ghost use Rattle.dc_door.specs.KeptDoors.{trail_at};
ghost use Rattle.script_core.specs.Rows.{section_of, IsLine, IsSection};
ghost use Rattle.script_core.specs.Scripts.{header_of, IsInRange};
ghost use Rattle.script_core.specs.Steps.{IsStepOf};
ghost use Rattle.run_sections.specs.Apart.{IsBookWith};
ghost use Rattle.run_sections.specs.Runs.{IsSectionRunOf};
ghost use Rattle.thread_run.specs.Tables.{notes_at, IsTableOf, AreLinked, AreNumbered, AreWide, HasPlayed};
ghost use Rattle.thread_run.specs.Played.{HasRun};

use crate::phases::play_phase;
use dc_door::KeptDoor;
use ids_core::NoMemory;
use io_edge::Gate;
use run_book::{Book, Logs, Trails};
use run_progress::{Extent, Progress};
use run_table::{Table, trails_of};
use script_core::{Script, Section, Step, StepsSeen};
use std::alloc::Global;
use std::sync::Wait;
use std::thread::Threads;

// Has the step's actor take it, as the only one of the section of a number.
#[tactic(auto, using(crate::proofs::Taking::client_taken, crate::proofs::Taking::order_taken))]
fn take_one(
    alloc: Global,
    script: &Script,
    number: u32,
    step: &Step,
    table: &mut Table,
) -> Result<(), NoMemory>
    requires range { IsInRange script.now }
    requires step { IsStepOf (header_of script.now) step.now }
    requires table { IsTableOf script.now table.old }
    requires linked { AreLinked script.now table.old }
    requires numbered { AreNumbered script.now table.old }
    ensures { OnOk result (HasPlayed script.now number (section_of step.now) table.old table.new) }
{
    match step {
        Step::Client { client, step } => table.step(alloc, *client, number, 1, step),
        Step::Operator { step } => table.order(alloc, script.n, number, 1, step),
    }
}

// Plays a section of one step, as the section of a number.
fn play_line(
    alloc: Global,
    script: &Script,
    number: u32,
    section: &Section,
    table: &mut Table,
) -> Result<(), NoMemory>
    requires range { IsInRange script.now }
    requires line { IsLine (header_of script.now) section.now }
    requires table { IsTableOf script.now table.old }
    requires linked { AreLinked script.now table.old }
    requires numbered { AreNumbered script.now table.old }
    ensures { OnOk result (HasPlayed script.now number section.now table.old table.new) }
{
    match section.steps.seen() {
        StepsSeen::One(step) => take_one(alloc, script, number, &step, table),
        StepsSeen::Many([step]) => take_one(alloc, script, number, step, table),
        StepsSeen::Many(_) => unreachable!(),
    }
}

// Plays a section, as the section of a number.
fn play_section<R: Threads + Wait + Sync, G: Gate>(
    rt: &R,
    alloc: Global,
    gate: &G,
    script: &Script,
    number: u32,
    section: &Section,
    table: Table,
) -> Result<Table, NoMemory>
    requires range { IsInRange script.now }
    requires section { IsSection (header_of script.now) section.now }
    requires table { IsTableOf script.now table }
    requires linked { AreLinked script.now table }
    requires numbered { AreNumbered script.now table }
    requires wide { AreWide script.now table }
    ensures { IfOk result (HasPlayed script.now number section.now table) }
{
    if section.phase {
        return play_phase(rt, alloc, gate, script, number, section, table);
    }
    let mut table = table;
    play_line(alloc, script, number, section, &mut table)?;
    Ok(table)
}

// All sections, one after another.
fn play_all<R: Threads + Wait + Sync, G: Gate + Progress>(
    rt: &R,
    alloc: Global,
    gate: &G,
    script: &Script,
) -> Result<Table, NoMemory>
    requires { IsInRange script.now }
    ensures { IfOk result (HasRun script.now script.now.sections) }
{
    let mut table = Table::new(alloc, script)?;
    let mut number = 0;
    let sections = script.sections.as_slice();
    let extent = Extent::of(script);
    gate.played(0, extent);
    'sections: for section in sections {
        number += 1;
        table = play_section(rt, alloc, gate, script, number, section, table)?;
        gate.played(u64::from(number), extent);
    }
    Ok(table)
}

// The trails of the centres behind a door.
fn trails_in(alloc: Global, door: KeptDoor) -> Result<Trails, NoMemory>
    ensures { IfOk result (λ trails. trails ≡ map (λ centre. centre.entries) door.centres) }
{
    trails_of(alloc, door.part())
}

// The book of a run of a script.
fn book_of(alloc: Global, script: &Script, table: Table) -> Result<Book, NoMemory>
    requires { IsTableOf script.now table }
    ensures { IfOk result (λ book. IsBookWith script.now book (notes_at table) (trail_at table.door.centres)) }
{
    let Table { door, logs, .. } = table;
    let trails = trails_in(alloc, door)?;
    Ok(Book {
        n: script.n,
        k: script.k,
        trails,
        logs: Logs::from_vec(logs),
    })
}

/// Plays a script whose numbers are in range, section by section, and each phase with threads: some for the clients, one
/// for the operator, and four for each centre. Each call of a host passes through the gate, which also hears how far the
/// play is. An `Err` is want of memory. It may wait for ever, as each wait of a thread may.
pub fn run<R: Threads + Wait + Sync, G: Gate + Progress>(
    rt: &R,
    alloc: Global,
    gate: &G,
    script: &Script,
) -> Result<Book, NoMemory>
    requires { IsInRange script.now }
    ensures { IfOk result (IsSectionRunOf script.now) }
{
    let table = play_all(rt, alloc, gate, script)?;
    book_of(alloc, script, table)
}
