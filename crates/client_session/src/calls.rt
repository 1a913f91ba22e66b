// Any call of a session, with how it ended.
ghost use Rattle.std.specs.Prelude.{◌≡◌, ◌≢◌, IfOk, OnErr};
ghost use Rattle.dc_talk.specs.Calls.{Ends};
ghost use Rattle.client_session.specs.SessionAnswers.{MayLack, touched};

use crate::session::Session;
use dc_talk::{Call, Outcome, Refusal};
use ids_core::NoMemory;
use std::alloc::Global;

impl Session {
    /// Makes a call: how it ended. An `Err` is want of memory, which comes only for a change or a read
    /// of an object that is there, a change that looks none up, and a commit that a number was due to.
    /// It leaves the session as it was, but that the object's entry may be the first of the cache.
    pub fn call(&mut self, alloc: Global, call: &Call) -> Result<Outcome, NoMemory>
        ensures ends { IfOk result (λ outcome. Ends self.old self.new call.now outcome) }
        ensures memory { OnErr result (self.new ≡ record self.old { cache = touched self.old call.now }) }
        ensures short { OnErr result (MayLack self.old call.now) }
    {
        match call {
            Call::Begin => match self.begin(alloc) {
                Ok(()) => Ok(Outcome::Fine),
                Err(refusal) => refused(refusal),
            },
            Call::Change { object, change } => match self.update(alloc, object, change) {
                Ok(()) => Ok(Outcome::Fine),
                Err(refusal) => refused(refusal),
            },
            Call::Read { object } => match self.read(alloc, object) {
                Ok(value) => Ok(Outcome::Got(value)),
                Err(refusal) => refused(refusal),
            },
            Call::Commit => match self.commit() {
                Ok(Some(number)) => Ok(Outcome::Number(number)),
                Ok(None) => Ok(Outcome::Nothing),
                Err(refusal) => refused(refusal),
            },
            Call::Abort => match self.abort() {
                Ok(()) => Ok(Outcome::Fine),
                Err(refusal) => refused(refusal),
            },
        }
    }
}

// How a call ended that was refused, where that was not for want of memory.
fn refused(refusal: Refusal) -> Result<Outcome, NoMemory>
    ensures ok { IfOk result (λ outcome. (outcome ≡ Outcome.Refused refusal) × (refusal ≢ Refusal.NoMemory)) }
    ensures err { OnErr result (refusal ≡ Refusal.NoMemory) }
{
    match refusal {
        Refusal::NoMemory => Err(NoMemory),
        _ => Ok(Outcome::Refused(refusal)),
    }
}
