// A round of a reporter.
ghost use Rattle.std.specs.Prelude.{◌≡◌, OnOk, OnErr};
ghost use Rattle.dc_talk.specs.Acting.{acting, IsCutShort};
ghost use Rattle.dc_talk.specs.Doors.{IsBehind};
ghost use Rattle.script_core.specs.Rounds.{ReporterDeeds};
ghost use Rattle.dc_worker.specs.Work.{CarriesSuch};

use dc_talk::{Door, Log};
use dc_worker::report_round;
use ids_core::NoMemory;

/// Tells each other centre of the `n` behind the door what this one has. An `Err` is want of memory: a part of the round
/// may have been made.
pub fn report_all<D: Door>(door: &mut D, n: u8, from: u8, log: &mut Log) -> Result<(), NoMemory>
    requires centres { (D.shown door.old).centres ≡ n }
    requires from { IsBehind (D.shown door.old) from }
    ensures place { D.place door.new ≡ D.place door.old }
    ensures reports { OnOk result (CarriesSuch (ReporterDeeds n from) (acting (D.shown door.old) log.old) (acting (D.shown door.new) log.new)) }
    ensures short { OnErr result (IsCutShort (acting (D.shown door.old) log.old) (acting (D.shown door.new) log.new)) }
{
    'others: for before in 0..n {
        let to = before + 1;
        if to == from {
            continue 'others;
        }
        report_round(door, from, to, log)?;
    }
    Ok(())
}
