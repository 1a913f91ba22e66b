// The steps of a client that ask the connected centre, or one to connect to.
ghost use Rattle.std.specs.Prelude.{◌≡◌, ◌≢◌, ◌↔◌, true, false, IsTrue, OnOk, OnErr};
ghost use Rattle.dc_talk.specs.Doors.{IsBehind};
ghost use Rattle.script_core.specs.declared.steps.ClientStep.TheVariants.{Connect, Push, Refresh};
ghost use Rattle.dc_talk.specs.Acting.{IsCutShort, acting};
ghost use Rattle.client_stub.specs.Playing.{IsLinkBehind, Takes, beside};
ghost use Rattle.client_stub.specs.Errands.{number_in};

use crate::notes::tell;
use crate::purpose::{Errand, Purpose};
use crate::stub::Stub;
use dc_talk::{Ask, Door, Line, Log, Refusal};
use ids_core::NoMemory;

impl Stub {
    // The step `connect`.
    pub(crate) fn connect<D: Door>(
        &mut self,
        door: &mut D,
        centre: u8,
        log: &mut Log,
    ) -> Result<(), NoMemory>
        requires centre { IsBehind (D.shown door.old) centre }
        requires behind { IsLinkBehind (D.shown door.old) self.old.client }
        ensures place { D.place door.new ≡ D.place door.old }
        ensures takes { OnOk result (Takes (Connect centre) (beside self.old (D.shown door.old) log.old) (beside self.new (D.shown door.new) log.new)) }
        ensures linked { IsLinkBehind (D.shown door.new) self.new.client }
        ensures short { OnErr result (IsCutShort (acting (D.shown door.old) log.old) (acting (D.shown door.new) log.new)) }
    {
        let errand = Errand {
            purpose: Purpose::Connect { centre },
            centre,
            ask: self.session.ask_hello(),
        };
        self.send(door, errand, log)?;
        Ok(())
    }

    // The step `push`.
    pub(crate) fn push<D: Door>(&mut self, door: &mut D, log: &mut Log) -> Result<(), NoMemory>
        requires { IsLinkBehind (D.shown door.old) self.old.client }
        ensures place { D.place door.new ≡ D.place door.old }
        ensures takes { OnOk result (Takes Push (beside self.old (D.shown door.old) log.old) (beside self.new (D.shown door.new) log.new)) }
        ensures linked { IsLinkBehind (D.shown door.new) self.new.client }
        ensures short { OnErr result (IsCutShort (acting (D.shown door.old) log.old) (acting (D.shown door.new) log.new)) }
    {
        let client = self.session.client();
        match self.session.ask_commit() {
            Ok(Some((centre, ask))) => {
                let purpose = Purpose::Push {
                    number: number_in(&ask),
                };
                let errand = Errand {
                    purpose,
                    centre,
                    ask,
                };
                self.send(door, errand, log)?;
                Ok(())
            }
            Ok(None) => {
                tell(log, Some(Line::PushNone { client }))?;
                Ok(())
            }
            Err(Refusal::NotConnected) => {
                tell(log, Some(Line::PushUnconnected { client }))?;
                Ok(())
            }
            // It is refused for nothing else but want of memory.
            Err(_) => Err(NoMemory),
        }
    }

    // The step `refresh`.
    pub(crate) fn refresh<D: Door>(&mut self, door: &mut D, log: &mut Log) -> Result<(), NoMemory>
        requires { IsLinkBehind (D.shown door.old) self.old.client }
        ensures place { D.place door.new ≡ D.place door.old }
        ensures takes { OnOk result (Takes Refresh (beside self.old (D.shown door.old) log.old) (beside self.new (D.shown door.new) log.new)) }
        ensures linked { IsLinkBehind (D.shown door.new) self.new.client }
        ensures short { OnErr result (IsCutShort (acting (D.shown door.old) log.old) (acting (D.shown door.new) log.new)) }
    {
        let client = self.session.client();
        match self.session.ask_refresh() {
            Ok((centre, ask)) => {
                let purpose = Purpose::Refresh;
                let errand = Errand {
                    purpose,
                    centre,
                    ask,
                };
                self.send(door, errand, log)?;
                Ok(())
            }
            Err(refusal) => {
                if is_not_connected(&refusal) {
                    tell(log, Some(Line::RefreshUnconnected { client }))?;
                    return Ok(());
                }
                tell(log, Some(Line::RefreshOpen { client }))?;
                Ok(())
            }
        }
    }
}

// Whether a session refused since no centre is connected.
fn is_not_connected(refusal: &Refusal) -> bool
    ensures test { IsTrue result ↔ (refusal.now ≡ Refusal.NotConnected) }
    ensures yes { result ≡ true → refusal.now ≡ Refusal.NotConnected }
    ensures other { result ≡ false → refusal.now ≢ Refusal.NotConnected }
{
    matches!(refusal, Refusal::NotConnected)
}

// The number of the transaction that an ask commits.
pub(crate) fn number_in(ask: &Ask) -> u64
    ensures { result ≡ number_in ask.now }
{
    match ask {
        Ask::Commit { tx } => tx.as_tx().dot.number,
        _ => 0,
    }
}
