// A client: its session, and the fault that is armed for its next ask.
ghost use Rattle.std.specs.Prelude.{◌≡◌, Some, None, OnOk, OnErr};
ghost use Rattle.script_core.specs.Steps.{IsStep};
ghost use Rattle.dc_talk.specs.Acting.{IsCutShort, acting};
ghost use Rattle.client_stub.specs.Playing.{IsLinkBehind, Takes, beside};

use crate::calls::{change_call, read_call};
use client_session::Session;
use dc_talk::{Call, Door, Log};
use ids_core::NoMemory;
use script_core::{AskFault, ClientStep};
use std::alloc::Global;
use std::marker::Model;

/// A client's session, with the fault that is armed for its next ask.
#[derive(Drop)]
pub struct Stub {
    pub(crate) session: Session,
    pub(crate) armed: Option<AskFault>,
}

impl Model for Stub {
    ghost use Rattle.tx_core.specs.States.{state_codes};
    ghost use Rattle.client_stub.specs.Playing.{StubView};

    ghost Value = { StubView };

    ghost coded = { Prim.hlevel state_codes };

    ghost view = { λ s. record { client = s.session; armed = s.armed } };
}

impl Stub {
    /// A client with this session, with no fault armed. It takes no memory.
    pub fn new(session: Session) -> Stub
        ensures { result ≡ record { client = session; armed = None } }
    {
        Stub {
            session,
            armed: None,
        }
    }

    /// The session. It takes no memory.
    pub fn session(&self) -> &Session
        ensures { result.now ≡ self.now.client }
    {
        &self.session
    }

    /// Takes a step of the client through a door to the centres, which it leaves at its place. For a look through a
    /// tap it does nothing: the caller, who has the taps, plays it. The notes are of the section and step that the log
    /// is at. An `Err` is want of memory: it may leave a part of the step in the session, in the log and at the centres,
    /// and the armed fault as it was or used.
    pub fn step<D: Door>(
        &mut self,
        alloc: Global,
        door: &mut D,
        step: &ClientStep,
        log: &mut Log,
    ) -> Result<(), NoMemory>
        requires fits { IsStep (D.shown door.old).centres step.now }
        requires behind { IsLinkBehind (D.shown door.old) self.old.client }
        ensures place { D.place door.new ≡ D.place door.old }
        ensures takes { OnOk result (Takes step.now (beside self.old (D.shown door.old) log.old) (beside self.new (D.shown door.new) log.new)) }
        ensures linked { IsLinkBehind (D.shown door.new) self.new.client }
        ensures short { OnErr result (IsCutShort (acting (D.shown door.old) log.old) (acting (D.shown door.new) log.new)) }
    {
        match step {
            ClientStep::Connect { centre } => self.connect(door, *centre, log),
            ClientStep::Begin => self.call_alone(alloc, door, &Call::Begin, log),
            ClientStep::Change { object, change } => {
                self.call_on(alloc, door, &change_call(object, change), log)
            }
            ClientStep::Read { object } => self.call_on(alloc, door, &read_call(object), log),
            ClientStep::Grant { share, amount } => self.grant(alloc, door, share, *amount, log),
            ClientStep::Give { share, to, amount } => {
                self.give(alloc, door, share, *to, *amount, log)
            }
            ClientStep::Take { share, amount } => self.take(alloc, door, share, *amount, log),
            ClientStep::Rights { share } => self.tell_rights(alloc, door, share, log),
            ClientStep::Commit => self.call_alone(alloc, door, &Call::Commit, log),
            ClientStep::Abort => self.call_alone(alloc, door, &Call::Abort, log),
            ClientStep::Push => self.push(door, log),
            ClientStep::Flush => self.flush(door, log),
            ClientStep::Refresh => self.refresh(door, log),
            ClientStep::Again { centre, number } => self.again(door, *centre, *number, log),
            ClientStep::Arm { fault } => {
                self.armed = Some(*fault);
                Ok(())
            }
            ClientStep::Look { .. } => Ok(()),
        }
    }
}
