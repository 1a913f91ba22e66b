// What centres have, told to others.
ghost use Rattle.std.specs.Prelude.{◌≡◌, ◌≢◌, IfOk, OnErr};
ghost use Rattle.dc_talk.specs.Acting.{acting, IsCutShort};
ghost use Rattle.dc_talk.specs.Doors.{IsBehind};
ghost use Rattle.script_core.specs.Carrying.{route, Tells};
ghost use Rattle.dc_worker.specs.Work.{CarriesSuch};

use crate::asks::ask_unheard;
use crate::ends::tell_line;
use crate::reports::{Reported, ask_report};
use dc_talk::{Ask, Door, Line, Log};
use ids_core::NoMemory;

/// Tells a centre what another one has. Both are behind the door. Answers the line that this has, which is none
/// where all was told. An `Err` is want of memory: one or both may have been asked.
pub fn tell<D: Door>(
    door: &mut D,
    from: u8,
    to: u8,
    log: &mut Log,
) -> Result<Option<Line>, NoMemory>
    requires from { IsBehind (D.shown door.old) from }
    requires to { IsBehind (D.shown door.old) to }
    requires apart { from ≢ to }
    ensures place { D.place door.new ≡ D.place door.old }
    ensures tells { IfOk result (λ line. CarriesSuch (λ deeds. Tells (route from to) deeds line) (acting (D.shown door.old) log.old) (acting (D.shown door.new) log.new)) }
    ensures short { OnErr result (IsCutShort (acting (D.shown door.old) log.old) (acting (D.shown door.new) log.new)) }
{
    match ask_report(door, from, log)? {
        Reported::Has(vector) => {
            let say = ask_unheard(door, to, Ask::Learn { from, vector }, log)?;
            Ok(tell_line(from, to, to, &say))
        }
        Reported::Else(say) => Ok(tell_line(from, to, from, &say)),
    }
}
