// Passes over all routes until nothing is news.
ghost use Rattle.std.specs.Prelude.{◌≡◌, IfOk, OnErr};
ghost use Rattle.std.specs.List.{list_any};
ghost use Rattle.dc_talk.specs.Acting.{acting, IsCutShort};
ghost use Rattle.script_core.specs.Carrying.{Passes, Settles, is_news};
ghost use Rattle.dc_worker.specs.Work.{CarriesSuch};
ghost use Rattle.dc_worker.specs.Rounds.{passes_of};

use crate::detours::over_all_detours;
use crate::news::has_news;
use crate::rounds::{Round, over_all_routes};
use dc_talk::{Door, Log};
use ids_core::NoMemory;

/// Delivers, relays and tells between the `n` centres behind the door, which are all, pass by pass, until a pass has no
/// news: no record is applied in it, and no vector tells a centre more. A pass is a delivery over each route, then a
/// relay over each detour, and then a tell over each route. Answers how many passes there were. It ends over every door, since the lists of a door
/// stay short. An `Err` is want of memory: any of the centres may have been asked.
pub fn settle<D: Door>(door: &mut D, n: u8, log: &mut Log) -> Result<u64, NoMemory>
    requires { (D.shown door.old).centres ≡ n }
    ensures place { D.place door.new ≡ D.place door.old }
    ensures settles { IfOk result (λ passes. CarriesSuch (λ deeds. (settles : Settles n deeds) × (passes ≡ passes_of settles)) (acting (D.shown door.old) log.old) (acting (D.shown door.new) log.new)) }
    ensures short { OnErr result (IsCutShort (acting (D.shown door.old) log.old) (acting (D.shown door.new) log.new)) }
{
    let mut passes = 1;
    'passes: while pass(door, n, log)? {
        passes += 1;
    }
    Ok(passes)
}

// One pass. Answers whether it had news.
fn pass<D: Door>(door: &mut D, n: u8, log: &mut Log) -> Result<bool, NoMemory>
    requires { (D.shown door.old).centres ≡ n }
    ensures place { D.place door.new ≡ D.place door.old }
    ensures passes { IfOk result (λ news. CarriesSuch (λ deeds. Passes n deeds × (news ≡ list_any is_news deeds)) (acting (D.shown door.old) log.old) (acting (D.shown door.new) log.new)) }
    ensures short { OnErr result (IsCutShort (acting (D.shown door.old) log.old) (acting (D.shown door.new) log.new)) }
{
    let before = log.as_slice().len();
    over_all_routes(door, Round::Ship, n, log)?;
    over_all_detours(door, n, log)?;
    over_all_routes(door, Round::Tell, n, log)?;
    Ok(has_news(log.as_slice(), before))
}
