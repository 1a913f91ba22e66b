// The stamps of transactions, in their order.
ghost use Rattle.std.specs.Prelude.{◌≡◌, true, false, not, cond, filter, [], IfOk, OnOk, OnErr, IfSome, IfNone};
ghost use Rattle.std.specs.BTreeMap.{is_at};
ghost use Rattle.list_core.specs.Members.{In};
ghost use Rattle.vv_core.specs.declared.stamp.Stamp.{Stamp};
ghost use Rattle.stamp_index.specs.declared.places.Place.{Place};
ghost use Rattle.stamp_index.specs.Places.{place_cmp, place_of, has_place, is_reached, HasFitNumbers};

use ids_core::NoMemory;
use std::collections::BTreeSet;
use std::collections::btree_set::Range;
use vv_core::Stamp;

/// Where a stamp of a transaction stands among all: by centre, then number, then transaction. A stamp of
/// number 0 is within every vector, and stands at centre 0, where each vector has 0.
#[derive(Clone, Copy, PartialEq, Eq, PartialOrd, Ord)]
pub struct Place {
    pub centre: u8,
    pub seq: u32,
    pub number: u64,
}

/// The places of all stamps.
pub type Places = BTreeSet<Place>;

// The place of a stamp of the transaction of a number.
fn place_of(number: u64, stamp: &Stamp) -> Place
    ensures { result ≡ place_of number stamp.now }
{
    let centre = if stamp.seq == 0 { 0 } else { stamp.centre };
    Place {
        centre,
        seq: stamp.seq,
        number,
    }
}

/// Notes a stamp of the transaction of a number: whether it was not there. An `Err` leaves all as it was.
pub fn note(places: &mut Places, number: u64, stamp: &Stamp) -> Result<bool, NoMemory>
    ensures new { IfOk result (λ new. new ≡ not (has_place places.old.keys (place_of number stamp.now))) }
    ensures ok { OnOk result ((p : Place) → has_place places.new.keys p ≡ cond (is_at (place_cmp (place_of number stamp.now)) p) true (has_place places.old.keys p)) }
    ensures err { OnErr result (places.new.keys ≡ places.old.keys) }
{
    let new = places.insert(place_of(number, stamp))?;
    Ok(new)
}

/// Forgets a stamp of the transaction of a number.
pub fn lift(places: &mut Places, number: u64, stamp: &Stamp)
    ensures { (p : Place) → has_place places.new.keys p ≡ cond (is_at (place_cmp (place_of number stamp.now)) p) false (has_place places.old.keys p) }
{
    places.remove(&place_of(number, stamp));
}

/// The places of a centre up to a number of its stamps, in their order.
pub fn reached(places: &Places, centre: u8, seq: u32) -> Range<'_, Place>
    requires { HasFitNumbers places.now.keys }
    ensures { result ≡ filter (is_reached centre seq) places.now.keys }
{
    let first = Place {
        centre,
        seq: 0,
        number: 0,
    };
    let last = Place {
        centre,
        seq,
        number: u64::MAX,
    };
    places.range(first..=last)
}

/// The first of the places of a centre up to a number of its stamps.
pub fn first_reached(places: &Places, centre: u8, seq: u32) -> Option<Place>
    requires { HasFitNumbers places.now.keys }
    ensures some { IfSome result (λ p. In p (filter (is_reached centre seq) places.now.keys)) }
    ensures none { IfNone result (filter (is_reached centre seq) places.now.keys ≡ []) }
{
    reached(places, centre, seq).next().copied()
}
