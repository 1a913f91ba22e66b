// The calls and lines that are noted in a log.
ghost use Rattle.std.specs.Prelude.{◌≡◌, ◌∷◌, OnOk, OnErr};
ghost use Rattle.dc_talk.specs.declared.log.Deed.TheVariants.{Did};
ghost use Rattle.dc_talk.specs.Acting.{IsCutShort, acting, noted_all};
ghost use Rattle.dc_talk.specs.Doors.{DoorView};
ghost use Rattle.script_core.specs.Deeds.{told};

use dc_talk::{Call, Deed, Line, Log, NotedOutcome, Outcome};
use ids_core::NoMemory;
use std::alloc::Global;

// Tells a line, where there is one. Nothing changes where memory is refused.
pub(crate) fn tell(log: &mut Log, line: Option<Line>) -> Result<(), NoMemory>
    ensures ok { OnOk result (log.new ≡ noted_all log.old (told line)) }
    ensures err { OnErr result (log.new ≡ log.old) }
{
    match line {
        Some(line) => log.push(Deed::Told(line)),
        None => Ok(()),
    }
}

// Notes a call of the session with how it ended, and tells its line, where it has one.
pub(crate) fn note_call(
    alloc: Global,
    log: &mut Log,
    call: &Call,
    outcome: Outcome,
    line: Option<Line>,
) -> Result<(), NoMemory>
    ensures ok { OnOk result (log.new ≡ noted_all log.old (Did call.now outcome ∷ told line)) }
    ensures short { (door : DoorView) → OnErr result (IsCutShort (acting door log.old) (acting door log.new)) }
{
    let call = *call;
    let outcome = NotedOutcome::new(alloc, outcome)?;
    log.push(Deed::Did { call, outcome })?;
    tell(log, line)?;
    Ok(())
}
