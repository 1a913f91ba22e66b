// Fetches of the objects of calls.
ghost use Rattle.std.specs.Prelude.{◌≡◌, IfOk, OnOk, OnErr};
ghost use Rattle.script_core.specs.Deeds.{FetchDeeds};
ghost use Rattle.dc_talk.specs.Acting.{IsCutShort, acting};
ghost use Rattle.client_stub.specs.Playing.{IsLinkBehind, beside, progress};
ghost use Rattle.client_stub.specs.Errands.{GrowsBy};
ghost use Rattle.client_stub.specs.Fetches.{Seeks, StateDeeds};

use crate::notes::tell;
use crate::purpose::{Errand, Next, Purpose};
use crate::stub::Stub;
use dc_talk::{Door, Line, Log};
use ids_core::NoMemory;
use script_core::ObjectCall;
use std::alloc::Global;

impl Stub {
    // Fetches the object of a call, and makes the call again where its state was taken, or what came to it.
    // Where the centre has pruned that, its state is asked for.
    pub(crate) fn fetch<D: Door>(
        &mut self,
        alloc: Global,
        door: &mut D,
        on: &ObjectCall,
        log: &mut Log,
    ) -> Result<(), NoMemory>
        requires { IsLinkBehind (D.shown door.old) self.old.client }
        ensures place { D.place door.new ≡ D.place door.old }
        ensures grows { OnOk result (GrowsBy (FetchDeeds (progress (beside self.old (D.shown door.old) log.old)) on.now) (beside self.old (D.shown door.old) log.old) (beside self.new (D.shown door.new) log.new)) }
        ensures linked { IsLinkBehind (D.shown door.new) self.new.client }
        ensures short { OnErr result (IsCutShort (acting (D.shown door.old) log.old) (acting (D.shown door.new) log.new)) }
    {
        match self.seek(door, on, log)? {
            Next::Done => Ok(()),
            Next::GoesOn => {
                self.call(alloc, on, log)?;
                Ok(())
            }
            Next::AsksOn => {
                self.fetch_state(alloc, door, on, log)?;
                Ok(())
            }
        }
    }

    // Asks once for the object of a call, and makes the call again where the answer was taken.
    fn fetch_state<D: Door>(
        &mut self,
        alloc: Global,
        door: &mut D,
        on: &ObjectCall,
        log: &mut Log,
    ) -> Result<(), NoMemory>
        requires { IsLinkBehind (D.shown door.old) self.old.client }
        ensures place { D.place door.new ≡ D.place door.old }
        ensures grows { OnOk result (GrowsBy (StateDeeds (progress (beside self.old (D.shown door.old) log.old)) on.now) (beside self.old (D.shown door.old) log.old) (beside self.new (D.shown door.new) log.new)) }
        ensures linked { IsLinkBehind (D.shown door.new) self.new.client }
        ensures short { OnErr result (IsCutShort (acting (D.shown door.old) log.old) (acting (D.shown door.new) log.new)) }
    {
        let next = self.seek(door, on, log)?;
        if next.is_more() {
            self.call(alloc, on, log)?;
        }
        Ok(())
    }

    // Asks for the object of a call; where no centre is connected, tells so. Answers what the step does then.
    fn seek<D: Door>(
        &mut self,
        door: &mut D,
        on: &ObjectCall,
        log: &mut Log,
    ) -> Result<Next, NoMemory>
        requires { IsLinkBehind (D.shown door.old) self.old.client }
        ensures place { D.place door.new ≡ D.place door.old }
        ensures seeks { IfOk result (λ next. Seeks on.now self.old.client.link (beside self.old (D.shown door.old) log.old) (beside self.new (D.shown door.new) log.new) next) }
        ensures linked { IsLinkBehind (D.shown door.new) self.new.client }
        ensures short { OnErr result (IsCutShort (acting (D.shown door.old) log.old) (acting (D.shown door.new) log.new)) }
    {
        let client = self.session.client();
        match self.session.ask_fetch(&on.object) {
            Ok((centre, ask)) => {
                let purpose = Purpose::Fetch(*on);
                let errand = Errand {
                    purpose,
                    centre,
                    ask,
                };
                let next = self.send(door, errand, log)?;
                Ok(next)
            }
            Err(_) => {
                let (word, object) = (on.word, on.shown);
                let line = Line::Unconnected {
                    client,
                    word,
                    object,
                };
                tell(log, Some(line))?;
                Ok(Next::Done)
            }
        }
    }
}
