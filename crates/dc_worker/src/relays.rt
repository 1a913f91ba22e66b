// Relays, by which a centre hands on an origin's records to another one.
ghost use Rattle.std.specs.Prelude.{◌≡◌, ◌≢◌, IfOk, OnErr};
ghost use Rattle.dc_talk.specs.Acting.{acting, IsCutShort};
ghost use Rattle.dc_talk.specs.Doors.{IsBehind};
ghost use Rattle.script_core.specs.Carrying.{detour, Relays};
ghost use Rattle.dc_worker.specs.Work.{CarriesSuch};

use crate::sends::Need;
use crate::ships::supply;
use dc_talk::{Door, Log, ShipEnd};
use ids_core::NoMemory;

/// Delivers the records of an origin that a centre has and another one lacks to this one, at most `MOST_SENT` of them,
/// until one is answered neither `Applied` nor `Old`. All three are behind the door. Answers how the last delivery ended:
/// nothing where there was none. An `Err` is want of memory: the two others may have been asked.
pub fn relay_all<D: Door>(
    door: &mut D,
    from: u8,
    origin: u8,
    to: u8,
    log: &mut Log,
) -> Result<Option<ShipEnd>, NoMemory>
    requires from { IsBehind (D.shown door.old) from }
    requires origin { IsBehind (D.shown door.old) origin }
    requires to { IsBehind (D.shown door.old) to }
    requires apart { from ≢ to }
    ensures place { D.place door.new ≡ D.place door.old }
    ensures relays { IfOk result (λ end. CarriesSuch (λ deeds. Relays (detour from origin to) deeds end) (acting (D.shown door.old) log.old) (acting (D.shown door.new) log.new)) }
    ensures short { OnErr result (IsCutShort (acting (D.shown door.old) log.old) (acting (D.shown door.new) log.new)) }
{
    supply(door, from, to, Need::Of { origin }, log)
}
