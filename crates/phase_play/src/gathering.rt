// Clients that are at one centre, brought together and back.
ghost use Rattle.std.specs.Prelude.{◌≡◌, ◌+◌, ◌<◌, ◌≤◌, [], length, All, IfOk, OnOk};
ghost use Rattle.phase_play.specs.Swaps.{Swaps, IsWithin, swapped_back};

use ids_core::{MOST_CENTRES, NoMemory};
use phase_actors::Player;
use std::alloc::Global;

/// Two places whose clients change places.
#[derive(Clone, Copy)]
pub(crate) struct Swap {
    here: usize,
    there: usize,
}

// The centre that a client is connected to, or 0.
fn centre_of(player: &Player) -> u8 {
    match player.stub.session().facts().centre {
        Some(centre) => centre,
        None => 0,
    }
}

// The clients at two places change places, which is noted.
fn change_places(
    players: &mut Vec<Player>,
    swaps: &mut Vec<Swap>,
    here: usize,
    there: usize,
) -> Result<(), NoMemory>
    requires here { here < length players.old.items }
    requires there { there < length players.old.items }
    ensures { OnOk result (Swaps players.old.items players.new.items swaps.old.items swaps.new.items) }
{
    swaps.push(Swap { here, there })?;
    players.swap(here, there);
    Ok(())
}

// A client that is at a centre gets to the end of those that are, which is told then.
fn bring_one(
    players: &mut Vec<Player>,
    swaps: &mut Vec<Swap>,
    centre: u8,
    end: usize,
    place: usize,
) -> Result<usize, NoMemory>
    requires end { end ≤ place }
    requires place { place < length players.old.items }
    ensures end { IfOk result (λ now. now ≤ place + 1) }
    ensures swaps { OnOk result (Swaps players.old.items players.new.items swaps.old.items swaps.new.items) }
{
    if centre_of(&players[place]) != centre {
        return Ok(end);
    }
    if end == place {
        return Ok(place + 1);
    }
    change_places(players, swaps, end, place)?;
    Ok(end + 1)
}

// Brings the clients at a centre together, from a place on, and tells the place behind them.
fn bring(
    players: &mut Vec<Player>,
    swaps: &mut Vec<Swap>,
    centre: u8,
    from: usize,
) -> Result<usize, NoMemory>
    requires { from ≤ length players.old.items }
    ensures end { IfOk result (λ end. end ≤ length players.old.items) }
    ensures swaps { OnOk result (Swaps players.old.items players.new.items swaps.old.items swaps.new.items) }
{
    let mut end = from;
    'places: for place in from..players.len() {
        end = bring_one(players, swaps, centre, end, place)?;
    }
    Ok(end)
}

/// Brings the clients at each centre together, and notes who changed places.
pub(crate) fn gather(alloc: Global, players: &mut Vec<Player>) -> Result<Vec<Swap>, NoMemory>
    ensures { IfOk result (λ swaps. Swaps players.old.items players.new.items [] swaps.items) }
{
    let mut swaps = Vec::new(alloc);
    let mut from = 0;
    'centres: for centre in 0..=MOST_CENTRES {
        from = bring(players, &mut swaps, centre, from)?;
    }
    Ok(swaps)
}

/// Puts clients back that changed places.
pub(crate) fn put_back(players: &mut Vec<Player>, swaps: Vec<Swap>)
    requires { All (IsWithin (length players.old.items)) swaps.items }
    ensures { players.new.items ≡ swapped_back players.old.items swaps.items }
{
    let mut left = swaps;
    'swaps: while let Some(swap) = left.pop() {
        players.swap(swap.here, swap.there);
    }
}
