// Events, played in a world.
ghost use Rattle.std.specs.Prelude.{◌≡◌, true, false, IfOk, OnErr, IsErr};
ghost use Rattle.world_core.specs.Events.{Plays, PlaysPart};

use crate::event::{Event, Played};
use crate::finding::{client_step_named, operator_step_named, work_named};
use crate::world::World;
use ids_core::NoMemory;
use std::alloc::Global;

impl<'a> World<'a> {
    // A client takes the step of a number in a section.
    fn play_client(
        &mut self,
        alloc: Global,
        client: u32,
        section: u32,
        step: u32,
    ) -> Result<Played, NoMemory>
        requires { self.old.spent ≡ false }
        ensures plays { IfOk result (Plays (Event.Client client section step) self.old self.new) }
        ensures script { self.new.script ≡ self.old.script }
        ensures spent { OnErr result (self.new.spent ≡ true) }
        ensures part { OnErr result (PlaysPart (Event.Client client section step) self.old self.new) }
    {
        match client_step_named(self.script, client, section, step) {
            Some(does) => {
                self.take(alloc, client, section, step, &does)?;
                Ok(Played::Done)
            }
            None => Ok(Played::NoSuch),
        }
    }

    // The operator takes the step of a number in a section.
    fn play_operator(&mut self, alloc: Global, section: u32, step: u32) -> Result<Played, NoMemory>
        requires { self.old.spent ≡ false }
        ensures plays { IfOk result (Plays (Event.Operator section step) self.old self.new) }
        ensures script { self.new.script ≡ self.old.script }
        ensures spent { OnErr result (self.new.spent ≡ true) }
        ensures part { OnErr result (PlaysPart (Event.Operator section step) self.old self.new) }
    {
        match operator_step_named(self.script, section, step) {
            Some(does) => {
                self.order(alloc, section, step, &does)?;
                Ok(Played::Done)
            }
            None => Ok(Played::NoSuch),
        }
    }

    // A worker of a centre makes its round of a number in a section.
    fn play_round(
        &mut self,
        alloc: Global,
        section: u32,
        round: u32,
        centre: u8,
        role: u8,
    ) -> Result<Played, NoMemory>
        requires { self.old.spent ≡ false }
        ensures plays { IfOk result (Plays (Event.Round section round centre role) self.old self.new) }
        ensures script { self.new.script ≡ self.old.script }
        ensures spent { OnErr result (self.new.spent ≡ true) }
        ensures part { OnErr result (PlaysPart (Event.Round section round centre role) self.old self.new) }
    {
        match work_named(self.script, section, round, centre, role) {
            Some(does) => {
                self.work(alloc, section, round, centre, does)?;
                Ok(Played::Done)
            }
            None => Ok(Played::NoSuch),
        }
    }

    // The commit ask at a place of a client's log comes again to a centre.
    fn play_again(&mut self, client: u32, note: u64, centre: u8) -> Result<Played, NoMemory>
        requires { self.old.spent ≡ false }
        ensures plays { IfOk result (Plays (Event.Again client note centre) self.old self.new) }
        ensures script { self.new.script ≡ self.old.script }
        ensures spent { OnErr result (self.new.spent ≡ true) }
        ensures part { OnErr result (PlaysPart (Event.Again client note centre) self.old self.new) }
    {
        match self.late_ask(client, note, centre) {
            Ok(Some(ask)) => {
                self.ask_once(client + 1, centre, ask)?;
                Ok(Played::Done)
            }
            Ok(None) => Ok(Played::NoSuch),
            Err(_) => {
                self.table.door.histories();
                self.spent = true;
                Err(NoMemory)
            }
        }
    }

    // A record of an answer is delivered to a centre by the operator.
    fn play_carry(&mut self, from: u8, entry: u64, index: u32, to: u8) -> Result<Played, NoMemory>
        requires { self.old.spent ≡ false }
        ensures plays { IfOk result (Plays (Event.Carry from entry index to) self.old self.new) }
        ensures script { self.new.script ≡ self.old.script }
        ensures spent { OnErr result (self.new.spent ≡ true) }
        ensures part { OnErr result (PlaysPart (Event.Carry from entry index to) self.old self.new) }
    {
        match self.carry_ask(from, entry, index, to) {
            Ok(Some(ask)) => {
                self.ask_once(1, to, ask)?;
                Ok(Played::Done)
            }
            Ok(None) => Ok(Played::NoSuch),
            Err(_) => {
                self.table.door.histories();
                self.spent = true;
                Err(NoMemory)
            }
        }
    }

    /// Plays an event: what it does is done, or nothing where what it names is not there. An `Err` is want of memory.
    /// The world is spent then: it has a part of the event, and stays so, and every later event and `finish` answer `Err`.
    pub fn play(&mut self, alloc: Global, event: &Event) -> Result<Played, NoMemory>
        ensures plays { IfOk result (Plays event.now self.old self.new) }
        ensures script { self.new.script ≡ self.old.script }
        ensures spent { OnErr result (self.new.spent ≡ true) }
        ensures part { OnErr result (self.old.spent ≡ false → PlaysPart event.now self.old self.new) }
        ensures refuses { self.old.spent ≡ true → IsErr result }
        ensures stays { self.old.spent ≡ true → self.new ≡ self.old }
    {
        if self.spent {
            return Err(NoMemory);
        }
        match *event {
            Event::Client {
                client,
                section,
                step,
            } => self.play_client(alloc, client, section, step),
            Event::Operator { section, step } => self.play_operator(alloc, section, step),
            Event::Round {
                section,
                round,
                centre,
                role,
            } => self.play_round(alloc, section, round, centre, role),
            Event::Again {
                client,
                note,
                centre,
            } => self.play_again(client, note, centre),
            Event::Carry {
                from,
                entry,
                index,
                to,
            } => self.play_carry(from, entry, index, to),
        }
    }
}
