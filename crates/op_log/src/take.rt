// Transactions with a stamp within a vector, taken out of what is kept.
ghost use Rattle.std.specs.Prelude.{◌≡◌, ◌≢◌, ◌+◌, ℕ, true, false, not, filter, length, []};
ghost use Rattle.std.specs.Map.{remove_entry, values_of};
ghost use Rattle.std.specs.Ordering.{nat_cmp};
ghost use Rattle.std.specs.BTreeMap.{is_at};
ghost use Rattle.list_core.specs.Members.{In};
ghost use Rattle.vv_core.specs.declared.stamp.Stamp.{Stamp as StampOf};
ghost use Rattle.op_log.specs.declared.logged.Logged.{Logged};
ghost use Rattle.stamp_index.specs.declared.places.Place.{Place as PlaceOf};
ghost use Rattle.op_log.specs.Logs.{is_inside, within_of};
ghost use Rattle.stamp_index.specs.Places.{has_place, place_of, reached_of};
ghost use Rattle.op_log.specs.Tables.{IsTable};

use crate::dots::{Dots, forget};
use crate::slots::Slots;
use stamp_index::{Places, entry, first_reached, lift};
use vv_core::{Stamp, Vector};

// Takes the transactions with a stamp within the vector out, with their dots and stamps: how many.
pub(crate) fn take_all(
    slots: &mut Slots,
    dots: &mut Dots,
    places: &mut Places,
    base: &Vector,
) -> u64
    requires { IsTable slots.old.entries dots.old.entries places.old.keys }
    ensures count { result ≡ length (within_of base.now (values_of slots.old.entries)) }
    ensures left { slots.new.entries ≡ filter (λ e. not (is_inside base.now e.1)) slots.old.entries }
    ensures table { IsTable slots.new.entries dots.new.entries places.new.keys }
{
    let before = slots.len();
    for centre in 0..base.width() + 1 {
        take_centre(slots, dots, places, centre, base);
    }
    (before - slots.len()) as u64
}

// The same for the stamps of one centre.
fn take_centre(slots: &mut Slots, dots: &mut Dots, places: &mut Places, centre: u8, base: &Vector)
    requires { IsTable slots.old.entries dots.old.entries places.old.keys }
    ensures table { IsTable slots.new.entries dots.new.entries places.new.keys }
    ensures left { filter (λ e. not (is_inside base.now e.1)) slots.new.entries ≡ filter (λ e. not (is_inside base.now e.1)) slots.old.entries }
    ensures fewer { (p : PlaceOf) → has_place places.new.keys p ≡ true → has_place places.old.keys p ≡ true }
    ensures none { reached_of base.now centre places.new.keys ≡ [] }
{
    let seq = entry(base, centre);
    while let Some(place) = first_reached(places, centre, seq) {
        take_one(slots, dots, places, place.number);
    }
}

// Takes the transaction of a number out.
fn take_one(slots: &mut Slots, dots: &mut Dots, places: &mut Places, number: u64)
    requires table { IsTable slots.old.entries dots.old.entries places.old.keys }
    requires there { (x : Logged) × In x (values_of slots.old.entries) × (x.number ≡ number) }
    ensures table { IsTable slots.new.entries dots.new.entries places.new.keys }
    ensures rest { slots.new.entries ≡ remove_entry (is_at (nat_cmp number)) slots.old.entries }
    ensures len { length slots.new.entries + 1 ≡ length slots.old.entries }
    ensures fewer { (p : PlaceOf) → has_place places.new.keys p ≡ true → has_place places.old.keys p ≡ true }
{
    if let Some(x) = slots.remove(&number) {
        forget(dots, &x.dot());
        lift_all(places, number, x.stamps());
    }
}

// Forgets the stamps of the transaction of a number.
fn lift_all(places: &mut Places, number: u64, stamps: &[Stamp])
    ensures apart { (p : PlaceOf) → p.number ≢ number → has_place places.new.keys p ≡ has_place places.old.keys p }
    ensures gone { (s : StampOf) → In s stamps.now → has_place places.new.keys (place_of number s) ≡ false }
    ensures fewer { (p : PlaceOf) → has_place places.new.keys p ≡ true → has_place places.old.keys p ≡ true }
{
    for stamp in stamps {
        lift(places, number, stamp);
    }
}
