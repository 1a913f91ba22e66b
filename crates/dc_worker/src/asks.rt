// Asks that no session hears.
ghost use Rattle.std.specs.Prelude.{◌≡◌, true, [], ◌∷◌, IfOk, OnOk, OnErr};
ghost use Rattle.dc_talk.specs.declared.log.Fate.TheVariants.{Unheard};
ghost use Rattle.dc_talk.specs.declared.log.Deed.TheVariants.{Asked};
ghost use Rattle.dc_talk.specs.Acting.{acting, IsCutShort};
ghost use Rattle.dc_talk.specs.Doors.{IsBehind, belongs};
ghost use Rattle.dc_talk.specs.Logs.{noted};
ghost use Rattle.script_core.specs.Orders.{Orders};
ghost use Rattle.dc_worker.specs.Work.{Adds, AddsSuch};

use dc_talk::{Ask, Deed, Door, Fate, Log, Say};
use ids_core::NoMemory;

/// Has a centre behind the door answer an ask, and notes both as heard by no session. Answers what the centre
/// said. An `Err` is want of memory: the centre may have been asked.
pub fn ask_unheard<D: Door>(
    door: &mut D,
    centre: u8,
    ask: Ask,
    log: &mut Log,
) -> Result<Say, NoMemory>
    requires { IsBehind (D.shown door.old) centre }
    ensures place { D.place door.new ≡ D.place door.old }
    ensures belongs { IfOk result (λ say. belongs ask say ≡ true) }
    ensures asks { IfOk result (λ say. Adds (acting (D.shown door.old) log.old) (acting (D.shown door.new) log.new) (Asked centre ask (Unheard say) ∷ [])) }
    ensures short { OnErr result (IsCutShort (acting (D.shown door.old) log.old) (acting (D.shown door.new) log.new)) }
{
    let said = door.ask(centre, &ask)?;
    let say = said.copy()?;
    note_unheard(log, centre, ask, said)?;
    Ok(say)
}

/// The same where what the centre said is for nobody.
pub fn ask_only<D: Door>(door: &mut D, centre: u8, ask: Ask, log: &mut Log) -> Result<(), NoMemory>
    requires { IsBehind (D.shown door.old) centre }
    ensures place { D.place door.new ≡ D.place door.old }
    ensures asks { OnOk result (AddsSuch (Orders centre ask) (acting (D.shown door.old) log.old) (acting (D.shown door.new) log.new)) }
    ensures short { OnErr result (IsCutShort (acting (D.shown door.old) log.old) (acting (D.shown door.new) log.new)) }
{
    let said = door.ask(centre, &ask)?;
    note_unheard(log, centre, ask, said)?;
    Ok(())
}

// Notes an ask with an answer that no session hears. Nothing changes where memory is refused.
#[inline(always)]
pub(crate) fn note_unheard(log: &mut Log, centre: u8, ask: Ask, said: Say) -> Result<(), NoMemory>
    ensures ok { OnOk result (log.new ≡ noted log.old (Asked centre ask (Unheard said))) }
    ensures err { OnErr result (log.new ≡ log.old) }
{
    let fate = Fate::Unheard(said);
    log.push(Deed::Asked { centre, ask, fate })
}
