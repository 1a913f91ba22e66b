// Deliveries and tells over all routes.
ghost use Rattle.std.specs.Prelude.{◌≡◌, ◌≢◌, OnOk, OnErr};
ghost use Rattle.dc_talk.specs.Acting.{acting, IsCutShort};
ghost use Rattle.dc_talk.specs.Doors.{IsBehind};
ghost use Rattle.script_core.specs.Carrying.{route, routes, InTurn};
ghost use Rattle.dc_worker.specs.Work.{CarriesSuch};
ghost use Rattle.dc_worker.specs.Rounds.{Does, routes_from};

use crate::ships::ship_all;
use crate::tells::tell;
use dc_talk::{Door, Log};
use ids_core::NoMemory;

// What is done over each route.
#[derive(Clone, Copy)]
pub(crate) enum Round {
    // A delivery of what the other centre lacks.
    Ship,
    // A tell.
    Tell,
}

// A round over one route.
fn over_route<D: Door>(
    door: &mut D,
    round: Round,
    from: u8,
    to: u8,
    log: &mut Log,
) -> Result<(), NoMemory>
    requires from { IsBehind (D.shown door.old) from }
    requires to { IsBehind (D.shown door.old) to }
    requires apart { from ≢ to }
    ensures place { D.place door.new ≡ D.place door.old }
    ensures does { OnOk result (CarriesSuch (Does round (route from to)) (acting (D.shown door.old) log.old) (acting (D.shown door.new) log.new)) }
    ensures short { OnErr result (IsCutShort (acting (D.shown door.old) log.old) (acting (D.shown door.new) log.new)) }
{
    match round {
        Round::Ship => {
            ship_all(door, from, to, log)?;
        }
        Round::Tell => {
            tell(door, from, to, log)?;
        }
    }
    Ok(())
}

// A round over the routes from one of the `n` centres behind the door to each other one.
fn over_routes_from<D: Door>(
    door: &mut D,
    round: Round,
    n: u8,
    from: u8,
    log: &mut Log,
) -> Result<(), NoMemory>
    requires centres { (D.shown door.old).centres ≡ n }
    requires from { IsBehind (D.shown door.old) from }
    ensures place { D.place door.new ≡ D.place door.old }
    ensures does { OnOk result (CarriesSuch (InTurn (Does round) (routes_from n from)) (acting (D.shown door.old) log.old) (acting (D.shown door.new) log.new)) }
    ensures short { OnErr result (IsCutShort (acting (D.shown door.old) log.old) (acting (D.shown door.new) log.new)) }
{
    'others: for before in 0..n {
        let to = before + 1;
        if from == to {
            continue 'others;
        }
        over_route(door, round, from, to, log)?;
    }
    Ok(())
}

// A round over all routes between the `n` centres behind the door.
pub(crate) fn over_all_routes<D: Door>(
    door: &mut D,
    round: Round,
    n: u8,
    log: &mut Log,
) -> Result<(), NoMemory>
    requires { (D.shown door.old).centres ≡ n }
    ensures place { D.place door.new ≡ D.place door.old }
    ensures does { OnOk result (CarriesSuch (InTurn (Does round) (routes n)) (acting (D.shown door.old) log.old) (acting (D.shown door.new) log.new)) }
    ensures short { OnErr result (IsCutShort (acting (D.shown door.old) log.old) (acting (D.shown door.new) log.new)) }
{
    'centres: for before in 0..n {
        let from = before + 1;
        over_routes_from(door, round, n, from, log)?;
    }
    Ok(())
}
