// The told table of a centre.
ghost use Rattle.std.specs.Prelude.{◌≡◌, ◌≢◌, ◌≤◌, ◌↔◌, ℕ, IsTrue, length, take};
ghost use Rattle.vv_core.specs.Vectors.{zeros, join_of};
ghost use Rattle.k_stable.specs.Tables.{IsTable, Learns, told_by, rows_of, stable_of, all_known_of};

use ids_core::MOST_CENTRES;
use std::marker::Model;
use vv_core::Vector;

/// What a centre was told of the others' vectors, kept inline. Contracts see which centre of how many it is, how
/// many centres make an entry stable, and for each centre the join of the vectors learned from it.
/// (Zawirski and others, Middleware 2015: K-stability.)
#[derive(Drop)]
pub struct Told {
    me: u8,
    n: u8,
    k: u8,
    rows: [Vector; MOST_CENTRES as usize],
}

impl Model for Told {
    ghost use Rattle.k_stable.specs.Tables.{Table, IsTable, table_in};

    ghost Value = { Table };

    ghost view = { λ t. table_in t.me t.n t.k t.rows };

    ghost invariant = { λ t. IsTable (table_in t.me t.n t.k t.rows) };
}

impl Told {
    /// The table of centre `me` of `n` with nothing learned. An entry is stable once `k` centres know it.
    pub fn new(me: u8, n: u8, k: u8) -> Told
        requires centre { (1 ≤ me) × (me ≤ n) }
        requires few { n ≤ MOST_CENTRES }
        requires known { (1 ≤ k) × (k ≤ n) }
        ensures numbers { (result.me ≡ me) × (result.n ≡ n) × (result.k ≡ k) }
        ensures told { (j : ℕ) → 1 ≤ j → j ≤ n → told_by result j ≡ zeros n }
        ensures table { IsTable result }
    {
        Told {
            me,
            n,
            k,
            rows: [Vector::zero(n); MOST_CENTRES as usize],
        }
    }

    /// The table of which these are the rows, one for each centre in their order.
    pub fn of_rows(me: u8, n: u8, k: u8, rows: &[Vector]) -> Told
        requires { IsTable (record { me = me; n = n; k = k; rows = rows.now }) }
        ensures { result ≡ record { me = me; n = n; k = k; rows = rows.now } }
    {
        Told {
            me,
            n,
            k,
            rows: placed(n, rows),
        }
    }

    /// The rows of all centres in their order, its own too, of which nothing was learned.
    pub fn rows(&self) -> &[Vector]
        ensures rows { result.now ≡ self.now.rows }
        ensures table { IsTable self.now }
    {
        &self.rows[..usize::from(self.n)]
    }

    /// Takes in a vector that centre `from` told, and answers whether that changed the row of `from`. A centre
    /// learns nothing from itself, and answers false.
    pub fn learn(&mut self, from: u8, vector: &Vector) -> bool
        requires from { (1 ≤ from) × (from ≤ self.old.n) }
        requires width { length vector.now ≡ self.old.n }
        ensures row { Learns self.old self.new from vector.now }
        ensures answer { IsTrue result ↔ (told_by self.new from ≢ told_by self.old from) }
        ensures table { IsTable self.new }
    {
        if from == self.me {
            return false;
        }
        join_into(&mut self.rows[usize::from(from - 1)], vector)
    }

    /// At each centre the greatest number that at least K centres are known to have, this one with its own
    /// vector, and that the own vector has.
    pub fn stable(&self, own: &Vector) -> Vector
        requires { length own.now ≡ self.now.n }
        ensures entries { result ≡ stable_of self.now own.now }
        ensures width { length result ≡ self.now.n }
    {
        let rows = self.rows_with(own);
        Vector::kth(&rows[..usize::from(self.n)], self.k).meet(own)
    }

    /// At each centre the least number that a centre is known to have, this one with its own vector.
    pub fn all_known(&self, own: &Vector) -> Vector
        requires { length own.now ≡ self.now.n }
        ensures entries { result ≡ all_known_of self.now own.now }
        ensures width { length result ≡ self.now.n }
    {
        let rows = self.rows_with(own);
        Vector::kth(&rows[..usize::from(self.n)], self.n)
    }

    // The rows of all centres, with the own vector in place of what was told by this one.
    fn rows_with(&self, own: &Vector) -> [Vector; MOST_CENTRES as usize]
        requires { length own.now ≡ self.now.n }
        ensures { take self.now.n result ≡ rows_of self.now own.now }
    {
        let mut rows = self.rows;
        rows[usize::from(self.me - 1)] = *own;
        rows
    }
}

// The rows of `n` centres, first in a place for more.
fn placed(n: u8, rows: &[Vector]) -> [Vector; MOST_CENTRES as usize]
    requires width { (1 ≤ n) × (n ≤ MOST_CENTRES) }
    requires count { length rows.now ≡ n }
    ensures { take n result ≡ rows.now }
{
    let mut places = [Vector::zero(n); MOST_CENTRES as usize];
    places[..rows.len()].copy_from_slice(rows);
    places
}

// Makes a row its join with a vector, and answers whether that changed it.
fn join_into(row: &mut Vector, vector: &Vector) -> bool
    requires { length vector.now ≡ length row.old }
    ensures row { row.new ≡ join_of row.old vector.now }
    ensures answer { IsTrue result ↔ (row.new ≢ row.old) }
{
    if row.covers(vector) {
        return false;
    }
    *row = row.join(vector);
    true
}
