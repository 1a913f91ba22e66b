// The links between the centres of a system.
ghost use Rattle.std.specs.Prelude.{◌≡◌, ◌-◌, [], ℕ, Some, length, slice_get, IfOk};
ghost use Rattle.dc_links.specs.Links.{IsMore, IsAmong, rows_of, row_of, column_of, AreGiverRows, AreTakerRows, put_between, taken_between};

use crate::rows::{close_rows, lay_row, no_rows};
use ids_core::NoMemory;
use link_frames::Frame;
use mail_link::{Giver, Link, Taker};
use std::alloc::Global;
use std::marker::Model;
use std::sync::Wait;

/// A link from each of some centres to each of them, also to itself, though that one is not used. Contracts see which
/// links these are: a row for each centre, in order, with its links to all.
#[derive(Drop)]
pub struct Links {
    rows: Vec<Vec<Link<Frame>>>,
}

impl Model for Links {
    ghost use Rattle.std.specs.Prelude.{List};
    ghost use Rattle.atomic_blocks.specs.Laid.{WebId};
    ghost use Rattle.dc_links.specs.Links.{rows_of, AreSquare};

    ghost Value = { List (List WebId) };

    ghost view = { λ l. rows_of l.rows.items };

    ghost invariant = { λ l. AreSquare (rows_of l.rows.items) };
}

/// New links with their ends: a row of those that put for each sender, and a row of those that take for each receiver,
/// in order.
#[derive(Drop)]
pub struct Laid {
    pub links: Links,
    pub givers: Vec<Vec<Giver<Frame>>>,
    pub takers: Vec<Vec<Taker<Frame>>>,
}

impl Links {
    /// Links between so many centres, and their ends. Nothing was put on them. An `Err` is want of memory.
    pub fn new(alloc: Global, n: u8) -> Result<Laid, NoMemory>
        ensures number { IfOk result (λ laid. length laid.links ≡ n) }
        ensures givers { IfOk result (λ laid. AreGiverRows laid.links (rows_of laid.givers.items)) }
        ensures takers { IfOk result (λ laid. AreTakerRows laid.links (rows_of laid.takers.items)) }
        ensures put { IfOk result (λ laid. (from to : ℕ) → put_between (rows_of laid.givers.items) from to ≡ []) }
        ensures taken { IfOk result (λ laid. (from to : ℕ) → taken_between (rows_of laid.takers.items) from to ≡ []) }
    {
        let mut rows = Vec::new(alloc);
        let mut givers = Vec::new(alloc);
        let mut takers = no_rows(alloc, n)?;
        'centres: for _from in 0..n {
            let (row, own) = lay_row(alloc, n, &mut takers)?;
            rows.push(row)?;
            givers.push(own)?;
        }
        Ok(Laid {
            links: Links { rows },
            givers,
            takers,
        })
    }

    // The link from one centre to another.
    pub(crate) fn between(&self, from: u8, to: u8) -> &Link<Frame>
        requires from { IsAmong (length self.now) from }
        requires to { IsAmong (length self.now) to }
        ensures row { slice_get (row_of self.now from) (to - 1) ≡ Some result.now }
        ensures column { slice_get (column_of self.now to) (from - 1) ≡ Some result.now }
    {
        &self.rows[usize::from(from) - 1][usize::from(to) - 1]
    }

    /// Takes the links out of use, with all their ends. What was put on each is what was taken from it, and then what
    /// is left, which goes with it. It may wait for steps that are under way.
    pub fn close<R: Wait>(
        self,
        rt: &R,
        givers: Vec<Vec<Giver<Frame>>>,
        takers: Vec<Vec<Taker<Frame>>>,
    )
        requires givers { AreGiverRows self (rows_of givers.items) }
        requires takers { AreTakerRows self (rows_of takers.items) }
        ensures more { (from to : ℕ) → IsAmong (length self) from → IsAmong (length self) to → IsMore (taken_between (rows_of takers.items) from to) (put_between (rows_of givers.items) from to) }
        ensures all { (from to : ℕ) → IsAmong (length self) from → IsAmong (length self) to → length (taken_between (rows_of takers.items) from to) ≡ length (put_between (rows_of givers.items) from to) → put_between (rows_of givers.items) from to ≡ taken_between (rows_of takers.items) from to }
    {
        let Links { rows } = self;
        close_rows(rt, rows, givers, takers);
    }
}
