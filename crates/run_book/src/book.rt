// What a run leaves.
ghost use Rattle.std.specs.Prelude.{◌≡◌, [], ◌∷◌, ◌++◌, OnOk, OnErr};
ghost use Rattle.run_book.specs.Books.{entries_of};

use dc_talk::{Ask, Log, Say};
use ids_core::NoMemory;
use list_core::List;
use machine_trail::Trail;
use std::alloc::Global;
use std::marker::Model;

/// The trails of the centres, the one of centre 1 first. They are seen as the lists of their
/// entries.
#[derive(Drop)]
pub struct Trails {
    items: Vec<Trail<Ask, Say>>,
}

impl Model for Trails {
    ghost use Rattle.std.specs.Prelude.{List};
    ghost use Rattle.dc_talk.specs.Entries.{Entry};
    ghost use Rattle.run_book.specs.Books.{entries_of};
    ghost use Rattle.tx_core.specs.States.{state_codes};

    ghost Value = { List (List Entry) };

    ghost coded = { Prim.hlevel state_codes };

    ghost view = { λ t. entries_of t.items.items };
}

/// The logs of the actors, the one of actor 1 first.
pub type Logs = List<Log>;

/// What a run leaves: trail I is the one of centre I, and the J-th log is the one of actor J. Actor
/// 1 is the operator, the clients are the actors behind it, and the workers those behind the
/// clients.
#[derive(Drop)]
pub struct Book {
    /// How many centres there are, from 1 to 8.
    pub n: u8,
    /// How many centres have to know an update before it is stable, from 1 to `n`.
    pub k: u8,
    pub trails: Trails,
    pub logs: Logs,
}

impl Book {
    /// The book of `n` centres without a trail or a log.
    pub fn new(alloc: Global, n: u8, k: u8) -> Self
        ensures { result ≡ record { n = n; k = k; trails = []; logs = [] } }
    {
        Book {
            n,
            k,
            trails: Trails::new(alloc),
            logs: Logs::new(alloc),
        }
    }
}

impl Trails {
    /// No trails.
    pub fn new(alloc: Global) -> Self
        ensures { result ≡ [] }
    {
        Trails {
            items: Vec::new(alloc),
        }
    }

    /// The trails of a vector.
    pub fn from_vec(items: Vec<Trail<Ask, Say>>) -> Self
        ensures { result ≡ entries_of items.items }
    {
        Trails { items }
    }

    /// Puts the trail of one more centre at the end. An `Err` leaves the trails as they were, and
    /// drops that one.
    pub fn push(&mut self, trail: Trail<Ask, Say>) -> Result<(), NoMemory>
        ensures ok { OnOk result (self.new ≡ self.old ++ trail.entries ∷ []) }
        ensures err { OnErr result (self.new ≡ self.old) }
    {
        self.items.push(trail)?;
        Ok(())
    }

    /// The trails in the order of the centres.
    pub fn as_slice(&self) -> &[Trail<Ask, Say>]
        ensures { entries_of result.now ≡ self.now }
    {
        self.items.as_slice()
    }
}
