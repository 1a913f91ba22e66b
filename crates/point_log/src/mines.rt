// Numbers of clients' transactions that were told, kept so that they are not looked for again.
ghost use Rattle.std.specs.Prelude.{◌≡◌, ℕ, List, Some, IfSome};
ghost use Rattle.vv_core.specs.Vectors.{Covers};
ghost use Rattle.point_log.specs.StandFor.{mine_told};
ghost use Rattle.point_log.specs.Mines.{IsMine, IsMinePut, mine_of};

use crate::standing::mine_at;
use check_point::Point;
use op_log::Log;
use std::collections::BTreeMap;
use vv_core::Vector;

/// The greatest number of a client's transactions within a vector, 0 for none.
#[derive(Clone, Copy)]
pub struct Mine {
    pub at: Vector,
    pub number: u64,
}

/// The last numbers that were told, one for each client.
pub type Mines = BTreeMap<u32, Mine>;

/// The greatest number of a client's transactions within a vector, 0 for none. It is kept, and at the same vector
/// it is told again; at another one time is that of the client's transactions in the log. Where memory is refused it
/// is told and not kept.
pub fn tell_mine(point: &Point, log: &Log, kept: &mut Mines, client: u32, at: &Vector) -> u64
    requires { (c : ℕ) → IfSome (mine_of kept.old.entries c) (IsMine point.now log.now c) }
    ensures number { result ≡ mine_told point.now log.now client at.now }
    ensures kept { (c : ℕ) → IfSome (mine_of kept.new.entries c) (IsMine point.now log.now c) }
    ensures here { (w : List ℕ) → Covers w at.now → ((c : ℕ) → IfSome (mine_of kept.old.entries c) (λ m. Covers w m.at)) → (c : ℕ) → IfSome (mine_of kept.new.entries c) (λ m. Covers w m.at) }
{
    if let Some(number) = mine_kept(kept, client, at) {
        return number;
    }
    let number = mine_at(point, log, client, at);
    put_mine(kept, client, Mine { at: *at, number });
    number
}

// What is kept of a client, where it is at this vector.
fn mine_kept(kept: &Mines, client: u32, at: &Vector) -> Option<u64>
    ensures { IfSome result (λ number. mine_of kept.now.entries client ≡ Some (record { at = at.now; number = number })) }
{
    match kept.get(&client) {
        Some(mine) if mine.at == *at => Some(mine.number),
        _ => None,
    }
}

// Keeps what is told of a client, unless memory is refused.
fn put_mine(kept: &mut Mines, client: u32, mine: Mine)
    ensures { IsMinePut kept.old.entries kept.new.entries client mine }
{
    match kept.insert(client, mine) {
        Ok(_) => {}
        Err(_) => {}
    }
}
