// Flushes.
ghost use Rattle.std.specs.Prelude.{◌≡◌, IfOk, OnOk, OnErr};
ghost use Rattle.script_core.specs.declared.steps.ClientStep.TheVariants.{Flush};
ghost use Rattle.dc_talk.specs.Acting.{IsCutShort, acting};
ghost use Rattle.client_stub.specs.Playing.{IsLinkBehind, Takes, beside};
ghost use Rattle.client_stub.specs.Errands.{FlushesOn};

use crate::asks::number_in;
use crate::notes::tell;
use crate::purpose::{Errand, Purpose};
use crate::stub::Stub;
use dc_talk::{Door, Line, Log, Refusal};
use ids_core::NoMemory;

impl Stub {
    // The step `flush`. It ends since the door's lists stay short: each push after which it goes on has its
    // entry there.
    pub(crate) fn flush<D: Door>(&mut self, door: &mut D, log: &mut Log) -> Result<(), NoMemory>
        requires { IsLinkBehind (D.shown door.old) self.old.client }
        ensures place { D.place door.new ≡ D.place door.old }
        ensures takes { OnOk result (Takes Flush (beside self.old (D.shown door.old) log.old) (beside self.new (D.shown door.new) log.new)) }
        ensures linked { IsLinkBehind (D.shown door.new) self.new.client }
        ensures short { OnErr result (IsCutShort (acting (D.shown door.old) log.old) (acting (D.shown door.new) log.new)) }
    {
        'pushes: while self.push_on(door, log)? {}
        Ok(())
    }

    // A push of a flush. Answers whether the flush goes on; where it does not, its line is told.
    fn push_on<D: Door>(&mut self, door: &mut D, log: &mut Log) -> Result<bool, NoMemory>
        requires { IsLinkBehind (D.shown door.old) self.old.client }
        ensures place { D.place door.new ≡ D.place door.old }
        ensures goes { IfOk result (λ more. FlushesOn (beside self.old (D.shown door.old) log.old) (beside self.new (D.shown door.new) log.new) more) }
        ensures linked { IsLinkBehind (D.shown door.new) self.new.client }
        ensures short { OnErr result (IsCutShort (acting (D.shown door.old) log.old) (acting (D.shown door.new) log.new)) }
    {
        let client = self.session.client();
        match self.session.ask_commit() {
            Ok(Some((centre, ask))) => {
                let purpose = Purpose::Flush {
                    number: number_in(&ask),
                };
                let errand = Errand {
                    purpose,
                    centre,
                    ask,
                };
                let next = self.send(door, errand, log)?;
                Ok(next.is_more())
            }
            Ok(None) => {
                let own = self.session.facts().own;
                tell(log, Some(Line::Flushed { client, own }))?;
                Ok(false)
            }
            Err(Refusal::NotConnected) => {
                tell(log, Some(Line::PushUnconnected { client }))?;
                Ok(false)
            }
            // It is refused for nothing else but want of memory.
            Err(_) => Err(NoMemory),
        }
    }
}
