// Reports of what a centre has.
ghost use Rattle.std.specs.Prelude.{◌≡◌, [], ◌∷◌, IfOk, OnErr};
ghost use Rattle.dc_talk.specs.declared.ask.Ask.TheVariants.{Report};
ghost use Rattle.dc_talk.specs.declared.log.Fate.TheVariants.{Unheard};
ghost use Rattle.dc_talk.specs.declared.log.Deed.TheVariants.{Asked};
ghost use Rattle.dc_talk.specs.Acting.{acting, IsCutShort};
ghost use Rattle.dc_talk.specs.Doors.{IsBehind};
ghost use Rattle.dc_worker.specs.Reports.{said_by, IsToldApart};
ghost use Rattle.dc_worker.specs.Work.{Adds};

use crate::asks::note_unheard;
use dc_talk::{Ask, Door, Log, Say};
use ids_core::NoMemory;
use vv_core::Vector;

// What a centre said to a report.
#[derive(Drop)]
pub(crate) enum Reported {
    // How many records of each centre are there.
    Has(Vector),
    // Anything else.
    Else(Say),
}

// Has a centre behind the door report what it has, and notes that as heard by no session. The vector alone is copied.
pub(crate) fn ask_report<D: Door>(
    door: &mut D,
    centre: u8,
    log: &mut Log,
) -> Result<Reported, NoMemory>
    requires { IsBehind (D.shown door.old) centre }
    ensures place { D.place door.new ≡ D.place door.old }
    ensures apart { IfOk result IsToldApart }
    ensures asks { IfOk result (λ reported. Adds (acting (D.shown door.old) log.old) (acting (D.shown door.new) log.new) (Asked centre Report (Unheard (said_by reported)) ∷ [])) }
    ensures short { OnErr result (IsCutShort (acting (D.shown door.old) log.old) (acting (D.shown door.new) log.new)) }
{
    let ask = Ask::Report;
    let said = door.ask(centre, &ask)?;
    let reported = reported_by(&said)?;
    note_unheard(log, centre, ask, said)?;
    Ok(reported)
}

// The vector of an answer, or else the answer again.
#[inline(always)]
fn reported_by(said: &Say) -> Result<Reported, NoMemory>
    ensures apart { IfOk result IsToldApart }
    ensures said { IfOk result (λ reported. said_by reported ≡ said.now) }
{
    match said {
        Say::Vector { vector } => Ok(Reported::Has(*vector)),
        said => Ok(Reported::Else(said.copy()?)),
    }
}
