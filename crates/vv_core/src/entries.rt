// Loops over the entries of vectors.
ghost use Rattle.std.specs.Prelude.{◌≡◌, ◌≤◌, ◌↔◌, ℕ, IsTrue, All, length, slice_index};
ghost use Rattle.vv_core.specs.Vectors.{join_of, meet_of, raised, kth_of, column, reach, tabulate};

use crate::stamp::Stamp;
use crate::vector::Vector;
use ids_core::MOST_CENTRES;

/// Whether no entry that is needed is greater than the one that is there.
pub fn covers_entries(have: &[u32], need: &[u32]) -> bool
    requires { length have.now ≡ length need.now }
    ensures { IsTrue result ↔ ((i : ℕ) → slice_index need.now i ≤ slice_index have.now i) }
{
    have.iter().zip(need).all(|(h, n)| *n <= *h)
}

/// Writes the greater of each two entries.
pub fn join_entries(into: &mut [u32], left: &[u32], right: &[u32])
    requires left { length into.old ≡ length left.now }
    requires right { length into.old ≡ length right.now }
    ensures { into.new ≡ join_of left.now right.now }
{
    for e in 0..into.len() {
        into[e] = left[e].max(right[e]);
    }
}

/// Writes the least of each two entries.
pub fn meet_entries(into: &mut [u32], left: &[u32], right: &[u32])
    requires left { length into.old ≡ length left.now }
    requires right { length into.old ≡ length right.now }
    ensures { into.new ≡ meet_of left.now right.now }
{
    for e in 0..into.len() {
        into[e] = left[e].min(right[e]);
    }
}

/// Makes the entry of the stamp's centre at least its number.
pub fn raise_entry(into: &mut [u32], stamp: &Stamp)
    requires { (1 ≤ stamp.now.centre) × (stamp.now.centre ≤ length into.old) }
    ensures { into.new ≡ raised into.old stamp.now }
{
    let place = usize::from(stamp.centre - 1);
    into[place] = into[place].max(stamp.seq);
}

/// Writes at each centre the greatest number that at least k rows reach.
pub fn kth_entries(into: &mut [u32], rows: &[Vector], k: usize)
    requires width { length into.old ≤ MOST_CENTRES }
    requires rows { All (λ row. length row ≡ length into.old) rows.now }
    ensures { into.new ≡ tabulate (length into.old) (λ e. kth_of k (column e rows.now)) }
{
    for e in 0..into.len() {
        into[e] = kth_entry(rows, (e + 1) as u8, k);
    }
}

// The greatest number that at least k rows reach at a centre.
fn kth_entry(rows: &[Vector], centre: u8, k: usize) -> u32
    requires centre { 1 ≤ centre }
    requires rows { All (λ row. centre ≤ length row) rows.now }
    ensures { result ≡ kth_of k (column centre rows.now) }
{
    let mut best: u32 = 0;
    for row in rows {
        let x = row.entry(centre);
        if k <= reach_at(rows, centre, x) {
            best = best.max(x);
        }
    }
    best
}

// How many rows reach a number at a centre.
fn reach_at(rows: &[Vector], centre: u8, x: u32) -> usize
    requires centre { 1 ≤ centre }
    requires rows { All (λ row. centre ≤ length row) rows.now }
    ensures { result ≡ reach x (column centre rows.now) }
{
    rows.iter()
        .map(|row| row.entry(centre))
        .filter(|y| x <= *y)
        .count()
}
