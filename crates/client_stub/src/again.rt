// Late copies of commits.
ghost use Rattle.std.specs.Prelude.{◌≡◌, Some, OnOk, OnErr};
ghost use Rattle.dc_talk.specs.Doors.{IsBehind};
ghost use Rattle.dc_talk.specs.Logs.{commit_sent};
ghost use Rattle.script_core.specs.declared.steps.ClientStep.TheVariants.{Again};
ghost use Rattle.dc_talk.specs.Acting.{IsCutShort, acting};
ghost use Rattle.client_stub.specs.Playing.{IsLinkBehind, Takes, beside};

use crate::lines::again_line;
use crate::notes::tell;
use crate::stub::Stub;
use dc_talk::{Ask, Deed, Door, Fate, Line, Log, SharedTx};
use ids_core::NoMemory;

impl Stub {
    // The step `again`. It uses no fault.
    pub(crate) fn again<D: Door>(
        &mut self,
        door: &mut D,
        centre: u8,
        number: u64,
        log: &mut Log,
    ) -> Result<(), NoMemory>
        requires centre { IsBehind (D.shown door.old) centre }
        requires behind { IsLinkBehind (D.shown door.old) self.old.client }
        ensures place { D.place door.new ≡ D.place door.old }
        ensures takes { OnOk result (Takes (Again centre number) (beside self.old (D.shown door.old) log.old) (beside self.new (D.shown door.new) log.new)) }
        ensures linked { IsLinkBehind (D.shown door.new) self.new.client }
        ensures short { OnErr result (IsCutShort (acting (D.shown door.old) log.old) (acting (D.shown door.new) log.new)) }
    {
        match log.commit_sent(number) {
            Some(tx) => {
                let tx = tx.copy()?;
                self.copy_late(door, centre, number, tx, log)?;
                Ok(())
            }
            None => {
                let client = self.session.client();
                let line = Line::AgainNone {
                    client,
                    centre,
                    number,
                };
                tell(log, Some(line))?;
                Ok(())
            }
        }
    }

    // Sends a commit of a number once more, to a centre, and tells how that ended.
    fn copy_late<D: Door>(
        &self,
        door: &mut D,
        centre: u8,
        number: u64,
        tx: SharedTx,
        log: &mut Log,
    ) -> Result<(), NoMemory>
        requires centre { IsBehind (D.shown door.old) centre }
        requires sent { commit_sent number log.old.notes ≡ Some tx }
        ensures place { D.place door.new ≡ D.place door.old }
        ensures takes { OnOk result (Takes (Again centre number) (beside self.now (D.shown door.old) log.old) (beside self.now (D.shown door.new) log.new)) }
        ensures short { OnErr result (IsCutShort (acting (D.shown door.old) log.old) (acting (D.shown door.new) log.new)) }
    {
        let client = self.session.client();
        let ask = Ask::Commit { tx };
        let say = door.ask(centre, &ask)?;
        let fate = Fate::Unheard(say);
        let line = again_line(client, centre, number, &fate);
        log.push(Deed::Asked { centre, ask, fate })?;
        tell(log, line)?;
        Ok(())
    }
}
