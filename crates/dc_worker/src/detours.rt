// Relays over all detours.
ghost use Rattle.std.specs.Prelude.{◌≡◌, OnOk, OnErr};
ghost use Rattle.dc_talk.specs.Acting.{acting, IsCutShort};
ghost use Rattle.dc_talk.specs.Doors.{IsBehind};
ghost use Rattle.script_core.specs.Carrying.{detours, InTurn};
ghost use Rattle.dc_worker.specs.Work.{CarriesSuch};
ghost use Rattle.dc_worker.specs.Rounds.{DoesRelay, detours_to, detours_from};

use crate::relays::relay_all;
use dc_talk::{Door, Log};
use ids_core::NoMemory;

// Relays of an origin's records from another one of the `n` centres behind the door to each third one.
fn over_detours_to<D: Door>(
    door: &mut D,
    n: u8,
    from: u8,
    origin: u8,
    log: &mut Log,
) -> Result<(), NoMemory>
    requires centres { (D.shown door.old).centres ≡ n }
    requires from { IsBehind (D.shown door.old) from }
    requires origin { IsBehind (D.shown door.old) origin }
    ensures place { D.place door.new ≡ D.place door.old }
    ensures does { OnOk result (CarriesSuch (InTurn DoesRelay (detours_to from origin n)) (acting (D.shown door.old) log.old) (acting (D.shown door.new) log.new)) }
    ensures short { OnErr result (IsCutShort (acting (D.shown door.old) log.old) (acting (D.shown door.new) log.new)) }
{
    'centres: for before in 0..n {
        let to = before + 1;
        if from == to {
            continue 'centres;
        }
        if origin == to {
            continue 'centres;
        }
        relay_all(door, from, origin, to, log)?;
    }
    Ok(())
}

// Relays from one of the `n` centres behind the door of each other one's records to each third one.
fn over_detours_from<D: Door>(door: &mut D, n: u8, from: u8, log: &mut Log) -> Result<(), NoMemory>
    requires centres { (D.shown door.old).centres ≡ n }
    requires from { IsBehind (D.shown door.old) from }
    ensures place { D.place door.new ≡ D.place door.old }
    ensures does { OnOk result (CarriesSuch (InTurn DoesRelay (detours_from n from n)) (acting (D.shown door.old) log.old) (acting (D.shown door.new) log.new)) }
    ensures short { OnErr result (IsCutShort (acting (D.shown door.old) log.old) (acting (D.shown door.new) log.new)) }
{
    'origins: for before in 0..n {
        let origin = before + 1;
        if from == origin {
            continue 'origins;
        }
        over_detours_to(door, n, from, origin, log)?;
    }
    Ok(())
}

// Relays over all detours between the `n` centres behind the door.
pub(crate) fn over_all_detours<D: Door>(door: &mut D, n: u8, log: &mut Log) -> Result<(), NoMemory>
    requires { (D.shown door.old).centres ≡ n }
    ensures place { D.place door.new ≡ D.place door.old }
    ensures does { OnOk result (CarriesSuch (InTurn DoesRelay (detours n)) (acting (D.shown door.old) log.old) (acting (D.shown door.new) log.new)) }
    ensures short { OnErr result (IsCutShort (acting (D.shown door.old) log.old) (acting (D.shown door.new) log.new)) }
{
    'centres: for before in 0..n {
        let from = before + 1;
        over_detours_from(door, n, from, log)?;
    }
    Ok(())
}
