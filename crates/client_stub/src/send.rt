// How a client asks a centre under the fault that is armed.
ghost use Rattle.std.specs.Prelude.{◌≡◌, ◌≢◌, ◌<◌, ◌^◌, ◌∷◌, [], length, None, IfOk, OnOk, OnErr};
ghost use Rattle.dc_talk.specs.declared.say.Say.{Say};
ghost use Rattle.dc_talk.specs.declared.log.Fate.TheVariants.{AskLost};
ghost use Rattle.dc_talk.specs.declared.log.Deed.TheVariants.{Asked};
ghost use Rattle.dc_talk.specs.Doors.{IsBehind, HasDone, MayHaveAsked};
ghost use Rattle.dc_talk.specs.Rule.{after, heard, takes, Gives};
ghost use Rattle.script_core.specs.Deeds.{fate_of, took};
ghost use Rattle.dc_talk.specs.Acting.{IsCutShort, acting};
ghost use Rattle.client_stub.specs.Playing.{IsLinkBehind, beside};
ghost use Rattle.client_stub.specs.Errands.{AsksAgain, HasAskedFor, Runs, second_of};

use crate::notes::tell;
use crate::purpose::{Errand, Next};
use crate::stub::Stub;
use client_session::Heard;
use dc_talk::{Ask, Deed, Door, Fate, Line, Log, Say};
use dc_worker::ask_only;
use ids_core::NoMemory;
use script_core::AskFault;

impl Stub {
    // Makes an errand: its ask under the fault that is armed, with its second copy where there is one, and
    // its line. Answers what the step does then.
    pub(crate) fn send<D: Door>(
        &mut self,
        door: &mut D,
        errand: Errand,
        log: &mut Log,
    ) -> Result<Next, NoMemory>
        requires gives { Gives self.old.client errand.centre errand.ask }
        requires centre { IsBehind (D.shown door.old) errand.centre }
        requires behind { IsLinkBehind (D.shown door.old) self.old.client }
        ensures place { D.place door.new ≡ D.place door.old }
        ensures runs { IfOk result (λ next. Runs errand (beside self.old (D.shown door.old) log.old) (beside self.new (D.shown door.new) log.new) next) }
        ensures linked { IsLinkBehind (D.shown door.new) self.new.client }
        ensures short { OnErr result (IsCutShort (acting (D.shown door.old) log.old) (acting (D.shown door.new) log.new)) }
    {
        let copy = second_of(self.armed, &errand.ask)?;
        let centre = errand.centre;
        let (line, next) = self.ask(door, errand, log)?;
        ask_again(door, centre, copy, log)?;
        tell(log, line)?;
        Ok(next)
    }

    // Asks under the fault that is armed, and notes what became of the ask. Answers the line that is to be
    // told, and what the step does then.
    fn ask<D: Door>(
        &mut self,
        door: &mut D,
        errand: Errand,
        log: &mut Log,
    ) -> Result<(Option<Line>, Next), NoMemory>
        requires gives { Gives self.old.client errand.centre errand.ask }
        requires centre { IsBehind (D.shown door.old) errand.centre }
        requires behind { IsLinkBehind (D.shown door.old) self.old.client }
        ensures place { D.place door.new ≡ D.place door.old }
        ensures asked { IfOk result (λ it. HasAskedFor errand (beside self.old (D.shown door.old) log.old) (beside self.new (D.shown door.new) log.new) it) }
        ensures linked { IsLinkBehind (D.shown door.new) self.new.client }
        ensures short { OnErr result (IsCutShort (acting (D.shown door.old) log.old) (acting (D.shown door.new) log.new)) }
    {
        let Errand {
            purpose,
            centre,
            ask,
        } = errand;
        let client = self.session.client();
        let (fate, took) = self.reach(door, centre, &ask)?;
        let line = purpose.line_after(client, took, &fate);
        let next = purpose.next_after(took, &fate);
        log.push(Deed::Asked { centre, ask, fate })?;
        Ok((line, next))
    }

    // What becomes of an ask under the fault that is armed, which is used. Answers also whether the session
    // took what it heard.
    fn reach<D: Door>(
        &mut self,
        door: &mut D,
        centre: u8,
        ask: &Ask,
    ) -> Result<(Fate, bool), NoMemory>
        requires centre { IsBehind (D.shown door.old) centre }
        requires behind { IsLinkBehind (D.shown door.old) self.old.client }
        ensures place { D.place door.new ≡ D.place door.old }
        ensures fate { IfOk result (λ it. (say : Say) × (it.0 ≡ fate_of self.old.armed say)) }
        ensures took { IfOk result (λ it. it.1 ≡ took self.old.client centre ask.now it.0) }
        ensures stub { IfOk result (λ it. self.new ≡ record { client = after self.old.client (Asked centre ask.now it.0); armed = None }) }
        ensures door { IfOk result (λ it. HasDone (D.shown door.old) (D.shown door.new) (Asked centre ask.now it.0 ∷ [])) }
        ensures room { IfOk result (λ it. it.0 ≢ AskLost → length ((D.shown door.new).made centre) < 2 ^ 62) }
        ensures linked { IsLinkBehind (D.shown door.new) self.new.client }
        ensures short { OnErr result (MayHaveAsked (D.shown door.old) (D.shown door.new)) }
    {
        let fault = self.armed;
        self.armed = None;
        match fault {
            Some(AskFault::LoseAsk) => Ok((Fate::AskLost, false)),
            Some(AskFault::LoseReply) => {
                let say = door.ask(centre, ask)?;
                Ok((Fate::ReplyLost(say), false))
            }
            _ => {
                let say = door.ask(centre, ask)?;
                let took = self.hear(centre, ask, &say)?;
                Ok((Fate::Heard(say), took))
            }
        }
    }

    // Has the session hear an answer. Answers whether it took it.
    fn hear(&mut self, centre: u8, ask: &Ask, say: &Say) -> Result<bool, NoMemory>
        ensures client { OnOk result (self.new ≡ record self.old { client = heard self.old.client centre ask.now say.now }) }
        ensures took { IfOk result (λ took. took ≡ takes self.old.client centre ask.now say.now) }
        ensures err { OnErr result (self.new ≡ self.old) }
    {
        let heard = self.session.hear(centre, ask, say)?;
        Ok(matches!(heard, Heard::Took))
    }
}

// The second copy of an ask, where the fault makes one.
fn second_of(fault: Option<AskFault>, ask: &Ask) -> Result<Option<Ask>, NoMemory>
    ensures { IfOk result (λ copy. copy ≡ second_of fault ask.now) }
{
    match fault {
        Some(AskFault::Twice) => Ok(Some(ask.copy()?)),
        _ => Ok(None),
    }
}

// Asks a second copy, where there is one.
fn ask_again<D: Door>(
    door: &mut D,
    centre: u8,
    copy: Option<Ask>,
    log: &mut Log,
) -> Result<(), NoMemory>
    requires { IsBehind (D.shown door.old) centre }
    ensures place { D.place door.new ≡ D.place door.old }
    ensures asks { OnOk result (AsksAgain centre copy (acting (D.shown door.old) log.old) (acting (D.shown door.new) log.new)) }
    ensures short { OnErr result (IsCutShort (acting (D.shown door.old) log.old) (acting (D.shown door.new) log.new)) }
{
    match copy {
        Some(ask) => ask_only(door, centre, ask, log),
        None => Ok(()),
    }
}
