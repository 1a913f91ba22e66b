// A world: the system on one thread.
ghost use Rattle.std.specs.Prelude.{◌≡◌, ◌≤◌, ◌+◌, true, false, [], map, length, IfOk, OnOk, OnErr, IsErr};
ghost use Rattle.script_core.specs.Steps.{IsStep, IsOperatorStep};
ghost use Rattle.world_core.specs.Worlds.{IsWorld};
ghost use Rattle.run_table.specs.Tables.{new_stubs};
ghost use Rattle.run_table.specs.Taps.{new_taps};
ghost use Rattle.script_core.specs.Scripts.{IsInRange};
ghost use Rattle.dc_mail.specs.Posts.{new_posts};
ghost use Rattle.run_table.specs.Works.{work_of};
ghost use Rattle.world_core.specs.Events.{TakesStep, TakesOrder, TakesRound, AsksOnce, MayAsk, TakesStepPart, TakesOrderPart, TakesRoundPart, AsksOncePart, turn_of};
ghost use Rattle.world_core.specs.Runs.{IsWorldBook};

use dc_talk::Ask;
use ids_core::NoMemory;
use run_book::{Book, Logs};
use run_table::{Table, Work, trails_of};
use script_core::{ClientStep, OperatorStep, Script};
use std::alloc::Global;
use std::marker::Model;

/// The system that a script sets up, on one thread: its centres with their trails, its clients, the logs of all
/// actors, what lies on the links between the centres, and the taps of the centres. Contracts see what happened in it by
/// these, and whether the world is spent: it is after want of memory in an event, which may have left a part of it, and then
/// it plays no more and gives no book.
#[derive(Drop)]
pub struct World<'a> {
    pub(crate) script: &'a Script,
    pub(crate) table: Table,
    pub(crate) spent: bool,
}

impl<'a> Model for World<'a> {
    ghost use Rattle.std.specs.Prelude.{◌≡◌, false};
    ghost use Rattle.world_core.specs.Worlds.{WorldView, seen_of};
    ghost use Rattle.world_core.specs.Runs.{IsSound};
    ghost use Rattle.tx_core.specs.States.{state_codes};

    ghost Value = { WorldView };

    ghost coded = { Prim.hlevel state_codes };

    ghost view = { λ w. seen_of w.script.now w.spent w.table };

    ghost invariant = { λ w. w.spent ≡ false → IsSound (seen_of w.script.now w.spent w.table) };
}

impl<'a> World<'a> {
    /// The system of a script whose numbers are in range, in which nothing happened. An `Err` is want of memory.
    pub fn new(alloc: Global, script: &'a Script) -> Result<World<'a>, NoMemory>
        requires { IsInRange script.now }
        ensures script { IfOk result (λ world. world.script ≡ script.now) }
        ensures fresh { IfOk result (λ world. world.spent ≡ false) }
        ensures empty { IfOk result (λ world. IsWorld world []) }
        ensures posts { IfOk result (λ world. world.posts ≡ new_posts) }
        ensures taps { IfOk result (λ world. world.taps ≡ new_taps script.now.n script.now.taps) }
        ensures stubs { IfOk result (λ world. world.stubs ≡ new_stubs script.now.n script.now.cache script.now.clients) }
    {
        let table = Table::new(alloc, script)?;
        Ok(World {
            script,
            table,
            spent: false,
        })
    }

    /// Has a client take a step as one of a section. After an `Err`, want of memory, the world is spent, and has a part
    /// of the step.
    pub(crate) fn take(
        &mut self,
        alloc: Global,
        client: u32,
        section: u32,
        number: u32,
        step: &ClientStep,
    ) -> Result<(), NoMemory>
        requires fresh { self.old.spent ≡ false }
        requires client { (1 ≤ client) × (client ≤ self.old.script.clients) }
        requires fits { IsStep self.old.script.n step.now }
        ensures takes { OnOk result (TakesStep (record { actor = client + 1; section = section; step = number }) step.now self.old self.new) }
        ensures script { self.new.script ≡ self.old.script }
        ensures spent { OnErr result (self.new.spent ≡ true) }
        ensures part { OnErr result (TakesStepPart client self.old self.new) }
    {
        self.spent = true;
        self.table.step(alloc, client, section, number, step)?;
        self.spent = false;
        Ok(())
    }

    /// Has the operator take a step as one of a section. After an `Err`, want of memory, the world is spent, and has a
    /// part of the step.
    pub(crate) fn order(
        &mut self,
        alloc: Global,
        section: u32,
        number: u32,
        step: &OperatorStep,
    ) -> Result<(), NoMemory>
        requires fresh { self.old.spent ≡ false }
        requires fits { IsOperatorStep self.old.script.n step.now }
        ensures takes { OnOk result (TakesOrder (record { actor = 1; section = section; step = number }) step.now self.old self.new) }
        ensures script { self.new.script ≡ self.old.script }
        ensures spent { OnErr result (self.new.spent ≡ true) }
        ensures part { OnErr result (TakesOrderPart self.old self.new) }
    {
        self.spent = true;
        let n = self.script.n;
        self.table.order(alloc, n, section, number, step)?;
        self.spent = false;
        Ok(())
    }

    /// Has a worker of a centre do its work in the round of a number of a section. After an `Err`, want of memory, the
    /// world is spent, and has a part of the round.
    pub(crate) fn work(
        &mut self,
        alloc: Global,
        section: u32,
        number: u32,
        centre: u8,
        does: Work,
    ) -> Result<(), NoMemory>
        requires fresh { self.old.spent ≡ false }
        requires centre { (1 ≤ centre) × (centre ≤ self.old.script.n) }
        ensures works { OnOk result (TakesRound (turn_of self.old.script section number (work_of centre does)) (work_of centre does) self.old self.new) }
        ensures script { self.new.script ≡ self.old.script }
        ensures spent { OnErr result (self.new.spent ≡ true) }
        ensures part { OnErr result (TakesRoundPart (turn_of self.old.script section number (work_of centre does)) centre does self.old self.new) }
    {
        self.spent = true;
        let script = self.script;
        self.table.work(
            alloc,
            script.n,
            script.clients,
            section,
            number,
            centre,
            does,
        )?;
        self.spent = false;
        Ok(())
    }

    /// Has an actor ask a centre, outside of the script, so that no session hears the answer. After an `Err`, want of
    /// memory, the world is spent, and the ask was not made, or made without a note.
    pub(crate) fn ask_once(&mut self, actor: u32, centre: u8, ask: Ask) -> Result<(), NoMemory>
        requires fresh { self.old.spent ≡ false }
        requires actor { (1 ≤ actor) × (actor ≤ length self.old.logs) }
        requires centre { (1 ≤ centre) × (centre ≤ self.old.script.n) }
        requires may { MayAsk actor centre ask self.old }
        ensures asks { OnOk result (AsksOnce actor centre ask self.old self.new) }
        ensures script { self.new.script ≡ self.old.script }
        ensures spent { OnErr result (self.new.spent ≡ true) }
        ensures part { OnErr result (AsksOncePart centre self.old self.new) }
    {
        self.spent = true;
        self.table.ask(actor, centre, ask)?;
        self.spent = false;
        Ok(())
    }

    /// The book of all that happened. An `Err` is want of memory; a spent world always answers it.
    pub fn finish(self, alloc: Global) -> Result<Book, NoMemory>
        ensures book { IfOk result (IsWorldBook self.entry) }
        ensures spent { self.entry.spent ≡ true → IsErr result }
    {
        if self.spent {
            return Err(NoMemory);
        }
        let World { script, table, .. } = self;
        let Table { door, logs, .. } = table;
        let trails = trails_of(alloc, door.part())?;
        Ok(Book {
            n: script.n,
            k: script.k,
            trails,
            logs: Logs::from_vec(logs),
        })
    }
}
