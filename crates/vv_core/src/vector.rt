// A vector of an entry for each centre, kept inline.
ghost use Rattle.std.specs.Prelude.{◌≡◌, ◌≤◌, ◌↔◌, ℕ, IsTrue, IsNone, IfSome, All, length};
ghost use Rattle.vv_core.specs.Vectors.{at, zeros, Covers, covers, join_of, meet_of, raised, within, width_of, kth_largest, lack_of, IsFirstLack};

use crate::entries::{covers_entries, join_entries, kth_entries, meet_entries, raise_entry};
use crate::stamp::{Lack, Stamp};
use ids_core::MOST_CENTRES;
use std::marker::Model;

/// One number for each centre, seen as the list of the numbers. It has 1 to 8 entries, for the centres 1, 2 and
/// so on. What lies behind them is 0. (Zawirski and others, Middleware 2015: version vectors.)
#[derive(Clone, Copy)]
pub struct Vector {
    entries: [u32; MOST_CENTRES as usize],
    width: u8,
}

impl Model for Vector {
    ghost use Rattle.std.specs.Prelude.{ℕ, List, ◌≤◌, ◌++◌, ◌-◌, take, length, replicate};
    ghost use Rattle.list_core.specs.Padded.{IsPadded, repadded};
    ghost use Rattle.ids_core.specs.declared.limits.TheConstants.{MOST_CENTRES};

    ghost Value = { List ℕ };

    ghost view = { λ v. take v.width v.entries };

    ghost invariant = { λ v. (1 ≤ v.width) × IsPadded MOST_CENTRES v.entries v.width };

    ghost inverse = { λ l. record { entries = l ++ replicate (MOST_CENTRES - length l) 0; width = length l } };

    ghost inverse_ok = { λ v h. repadded (λ entries width. record { entries = entries; width = width }) MOST_CENTRES v.entries v.width h.1 };
}

impl Vector {
    /// The vector of `n` entries that are 0, for `n` in 1 to 8.
    pub fn zero(n: u8) -> Vector
        requires { (1 ≤ n) × (n ≤ MOST_CENTRES) }
        ensures { result ≡ zeros n }
    {
        Vector {
            entries: [0; MOST_CENTRES as usize],
            width: n,
        }
    }

    /// The number of entries.
    pub fn width(&self) -> u8
        ensures width { result ≡ length self.now }
        ensures range { (1 ≤ result) × (result ≤ MOST_CENTRES) }
    {
        self.width
    }

    /// The entries in the order of the centres.
    pub fn as_slice(&self) -> &[u32]
        ensures value { result.now ≡ self.now }
        ensures range { (1 ≤ length result.now) × (length result.now ≤ MOST_CENTRES) }
    {
        &self.entries[..usize::from(self.width)]
    }

    /// The entry of a centre, counted from 1.
    pub fn get(&self, centre: u8) -> u64
        requires { (1 ≤ centre) × (centre ≤ length self.now) }
        ensures { result ≡ at self.now centre }
    {
        u64::from(self.entry(centre))
    }

    // The entry of a centre as it is kept.
    pub(crate) fn entry(&self, centre: u8) -> u32
        requires { (1 ≤ centre) × (centre ≤ length self.now) }
        ensures { result ≡ at self.now centre }
    {
        self.entries[usize::from(centre - 1)]
    }

    /// Whether a stamp is within the vector: its number is at most the entry of its centre.
    pub fn has(&self, stamp: &Stamp) -> bool
        requires { (1 ≤ stamp.now.centre) × (stamp.now.centre ≤ length self.now) }
        ensures test { result ≡ within stamp.now self.now }
        ensures number { IsTrue result ↔ (stamp.now.seq ≤ at self.now stamp.now.centre) }
    {
        stamp.seq <= self.entry(stamp.centre)
    }

    /// Whether no entry of the other is greater.
    pub fn covers(&self, other: &Vector) -> bool
        requires { length self.now ≡ length other.now }
        ensures test { result ≡ covers self.now other.now }
        ensures entries { IsTrue result ↔ Covers self.now other.now }
    {
        covers_entries(self.as_slice(), other.as_slice())
    }

    /// The greater of each two entries.
    pub fn join(&self, other: &Vector) -> Vector
        requires { length self.now ≡ length other.now }
        ensures entries { result ≡ join_of self.now other.now }
        ensures width { length result ≡ length self.now }
    {
        let mut entries = [0; MOST_CENTRES as usize];
        join_entries(
            &mut entries[..usize::from(self.width)],
            self.as_slice(),
            other.as_slice(),
        );
        Vector {
            entries,
            width: self.width,
        }
    }

    /// The least of each two entries.
    pub fn meet(&self, other: &Vector) -> Vector
        requires { length self.now ≡ length other.now }
        ensures entries { result ≡ meet_of self.now other.now }
        ensures width { length result ≡ length self.now }
    {
        let mut entries = [0; MOST_CENTRES as usize];
        meet_entries(
            &mut entries[..usize::from(self.width)],
            self.as_slice(),
            other.as_slice(),
        );
        Vector {
            entries,
            width: self.width,
        }
    }

    /// The join with one stamp: the entry of its centre becomes at least its number.
    pub fn raise(&self, stamp: &Stamp) -> Vector
        requires { (1 ≤ stamp.now.centre) × (stamp.now.centre ≤ length self.now) }
        ensures entries { result ≡ raised self.now stamp.now }
        ensures width { length result ≡ length self.now }
    {
        let mut raised = *self;
        raised.raise_by(stamp);
        raised
    }

    /// Joins one stamp: the entry of its centre becomes at least its number.
    pub fn raise_by(&mut self, stamp: &Stamp)
        requires { (1 ≤ stamp.now.centre) × (stamp.now.centre ≤ length self.old) }
        ensures entries { self.new ≡ raised self.old stamp.now }
        ensures width { length self.new ≡ length self.old }
    {
        let width = usize::from(self.width);
        raise_entry(&mut self.entries[..width], stamp);
    }

    /// At each centre the greatest number that at least `k` rows reach. The rows have one width.
    pub fn kth(rows: &[Vector], k: u8) -> Vector
        requires k { (1 ≤ k) × (k ≤ length rows.now) }
        requires rows { All (λ row. length row ≡ width_of rows.now) rows.now }
        ensures entries { result ≡ kth_largest k rows.now }
        ensures width { length result ≡ width_of rows.now }
    {
        let width = rows[0].width();
        let mut entries = [0; MOST_CENTRES as usize];
        kth_entries(&mut entries[..usize::from(width)], rows, usize::from(k));
        Vector { entries, width }
    }

    /// The least centre where `need` exceeds `have`, with both numbers.
    pub fn first_lack(have: &Vector, need: &Vector) -> Option<Lack>
        requires { length have.now ≡ length need.now }
        ensures lack { result ≡ lack_of have.now need.now }
        ensures none { IsNone result ↔ Covers have.now need.now }
        ensures some { IfSome result (IsFirstLack have.now need.now) }
    {
        for centre in 1..have.width() + 1 {
            let h = have.get(centre);
            let n = need.get(centre);
            if h < n {
                return Some(Lack {
                    centre,
                    need: n,
                    have: h,
                });
            }
        }
        None
    }
}

impl PartialEq for Vector {
    ghost use Rattle.std.specs.Prelude.{◌==◌};
    ghost use Rattle.std.proofs.Common.{rules};
    ghost use Rattle.std.specs.Cmp.Rules.{comparing};
    ghost use lib.Pointwise.{pointwise};

    ghost eq = { pointwise ◌==◌ };

    ghost laws = { Prim.search (comparing, rules) };

    fn eq(&self, other: &Vector) -> bool {
        self.as_slice() == other.as_slice()
    }
}

impl Eq for Vector {
    ghost use Rattle.std.proofs.Common.{rules};
    ghost use Rattle.std.specs.Cmp.Rules.{comparing};

    ghost laws = { Prim.search (comparing, rules) };
}
