// The calls that the steps of a client make at its session.
ghost use Rattle.std.specs.Prelude.{◌≡◌, IfOk, OnOk, OnErr};
ghost use Rattle.dc_talk.specs.Calls.{outcome_of};
ghost use Rattle.dc_talk.specs.Doors.{DoorView};
ghost use Rattle.script_core.specs.Deeds.{CallDeeds, calls, change_call, read_call};
ghost use Rattle.dc_talk.specs.Acting.{IsCutShort, acting};
ghost use Rattle.client_stub.specs.Playing.{IsLinkBehind, beside, progress};
ghost use Rattle.client_stub.specs.Errands.{GrowsBy, MakesCall, needs_fetch};

use crate::lines::{call_line, line_on, word_of};
use crate::notes::note_call;
use crate::stub::Stub;
use dc_talk::{Call, Change, Door, Log, Outcome, Refusal, StepWord};
use ids_core::{NoMemory, ObjectId};
use script_core::ObjectCall;
use std::alloc::Global;

impl Stub {
    // Makes a call on an object, notes how it ended, and tells its line. Answers whether it has to have
    // the object fetched.
    pub(crate) fn call(
        &mut self,
        alloc: Global,
        on: &ObjectCall,
        log: &mut Log,
    ) -> Result<bool, NoMemory>
        ensures makes { IfOk result (λ needs. (door : DoorView) → MakesCall on.now (beside self.old door log.old) (beside self.new door log.new) needs) }
        ensures linked { self.new.client.link ≡ self.old.client.link }
        ensures short { (door : DoorView) → OnErr result (IsCutShort (acting door log.old) (acting door log.new)) }
    {
        let client = self.session.client();
        let outcome = self.session.call(alloc, &on.call)?;
        let needs = needs_fetch(&outcome);
        let line = line_on(client, on, &outcome)?;
        note_call(alloc, log, &on.call, outcome, line)?;
        Ok(needs)
    }

    // A step that is a call on no object.
    pub(crate) fn call_alone<D: Door>(
        &mut self,
        alloc: Global,
        door: &mut D,
        call: &Call,
        log: &mut Log,
    ) -> Result<(), NoMemory>
        requires { IsLinkBehind (D.shown door.old) self.old.client }
        ensures place { D.place door.new ≡ D.place door.old }
        ensures grows { OnOk result (GrowsBy (λ deeds. deeds ≡ calls self.old.client call.now) (beside self.old (D.shown door.old) log.old) (beside self.new (D.shown door.new) log.new)) }
        ensures linked { IsLinkBehind (D.shown door.new) self.new.client }
        ensures short { OnErr result (IsCutShort (acting (D.shown door.old) log.old) (acting (D.shown door.new) log.new)) }
    {
        let client = self.session.client();
        let outcome = self.session.call(alloc, call)?;
        let line = call_line(client, call, &outcome)?;
        note_call(alloc, log, call, outcome, line)?;
        Ok(())
    }

    // A step that is a call on an object: where the object is needed, it is fetched, and the call made
    // again.
    pub(crate) fn call_on<D: Door>(
        &mut self,
        alloc: Global,
        door: &mut D,
        on: &ObjectCall,
        log: &mut Log,
    ) -> Result<(), NoMemory>
        requires { IsLinkBehind (D.shown door.old) self.old.client }
        ensures place { D.place door.new ≡ D.place door.old }
        ensures grows { OnOk result (GrowsBy (CallDeeds (progress (beside self.old (D.shown door.old) log.old)) on.now (outcome_of self.old.client on.now.call)) (beside self.old (D.shown door.old) log.old) (beside self.new (D.shown door.new) log.new)) }
        ensures linked { IsLinkBehind (D.shown door.new) self.new.client }
        ensures short { OnErr result (IsCutShort (acting (D.shown door.old) log.old) (acting (D.shown door.new) log.new)) }
    {
        if self.call(alloc, on, log)? {
            self.fetch(alloc, door, on, log)?;
        }
        Ok(())
    }
}

/// A change of an object, as a call on it.
pub fn change_call(object: &ObjectId, change: &Change) -> ObjectCall
    ensures { result ≡ change_call object.now change.now }
{
    let call = Call::Change {
        object: *object,
        change: *change,
    };
    ObjectCall {
        word: word_of(change),
        shown: *object,
        object: *object,
        call,
    }
}

/// A read of an object, as a call on it.
pub fn read_call(object: &ObjectId) -> ObjectCall
    ensures { result ≡ read_call object.now }
{
    let call = Call::Read { object: *object };
    ObjectCall {
        word: StepWord::Read,
        shown: *object,
        object: *object,
        call,
    }
}

// Whether a call has to have its object fetched.
fn needs_fetch(outcome: &Outcome) -> bool
    ensures { result ≡ needs_fetch outcome.now }
{
    matches!(outcome, Outcome::Refused(Refusal::NeedsFetch { .. }))
}
