// The stamps of the transactions, with the transactions and in their order.
ghost use Rattle.std.specs.Prelude.{◌≡◌, ◌<◌, ◌⊎◌, ◌++◌, ◌∷◌, [], ◌||◌, ◌&&◌, true, false, cond, All, IfOk, OnOk, OnErr};
ghost use Rattle.std.specs.Map.{values_of};
ghost use Rattle.std.specs.BTreeMap.{is_at};
ghost use Rattle.list_core.specs.Members.{In};
ghost use Rattle.ids_core.specs.Ids.{same_dot};
ghost use Rattle.vv_core.specs.declared.stamp.Stamp.{Stamp as StampOf};
ghost use Rattle.op_log.specs.declared.logged.Logged.{Logged as LoggedOf};
ghost use Rattle.stamp_index.specs.declared.places.Place.{Place};
ghost use Rattle.op_log.specs.Logs.{has_dot, with_stamp};
ghost use Rattle.stamp_index.specs.Places.{place_cmp, place_of, has_place};
ghost use Rattle.op_log.specs.Tables.{Rises, IsKeyed};

use crate::logged::Logged;
use crate::slots::{Slots, add_at, is_named, keep};
use ids_core::{Dot, NoMemory};
use stamp_index::{Places, lift, note};
use std::alloc::Global;
use vv_core::Stamp;

// Keeps a transaction, whose number is above all others and has no stamp yet, with a stamp. An `Err` leaves
// all as it was.
pub(crate) fn keep_stamped(
    alloc: Global,
    slots: &mut Slots,
    places: &mut Places,
    x: Logged,
    stamp: &Stamp,
) -> Result<(), NoMemory>
    requires below { All (λ e. e.0 < x.number) slots.old.entries }
    requires new { has_place places.old.keys (place_of x.number stamp.now) ≡ false }
    ensures ok { OnOk result (slots.new.entries ≡ slots.old.entries ++ (x.number, x) ∷ []) }
    ensures noted { OnOk result ((p : Place) → has_place places.new.keys p ≡ cond (is_at (place_cmp (place_of x.number stamp.now)) p) true (has_place places.old.keys p)) }
    ensures err { OnErr result (slots.new.entries ≡ slots.old.entries) }
    ensures kept { OnErr result ((p : Place) → has_place places.new.keys p ≡ has_place places.old.keys p) }
{
    let number = x.number;
    note(places, number, stamp)?;
    if keep(alloc, slots, x).is_err() {
        lift(places, number, stamp);
        return Err(NoMemory);
    }
    Ok(())
}

// Gives the transaction of a number one stamp more, if it has the dot: whether it has. No other transaction
// has it. An `Err` leaves all as it was.
pub(crate) fn alias_at(
    alloc: Global,
    slots: &mut Slots,
    places: &mut Places,
    number: u64,
    dot: &Dot,
    stamp: &Stamp,
) -> Result<bool, NoMemory>
    requires keyed { IsKeyed slots.old.entries }
    requires rises { Rises (values_of slots.old.entries) }
    requires one { (x : LoggedOf) → In x (values_of slots.old.entries) → same_dot x.tx.dot dot.now ≡ true → x.number ≡ number }
    ensures found { IfOk result (λ found. found ≡ has_dot dot.now (values_of slots.old.entries)) }
    ensures ok { OnOk result (values_of slots.new.entries ≡ with_stamp dot.now stamp.now (values_of slots.old.entries)) }
    ensures err { OnErr result (slots.new.entries ≡ slots.old.entries) }
    ensures keyed { IsKeyed slots.new.entries }
    ensures noted { OnOk result ((p : Place) → has_place places.new.keys p ≡ ((has_dot dot.now (values_of slots.old.entries) && is_at (place_cmp (place_of number stamp.now)) p) || has_place places.old.keys p)) }
    ensures kept { OnErr result ((p : Place) → has_place places.new.keys p ≡ has_place places.old.keys p) }
{
    if !is_named(slots, number, dot) {
        return Ok(false);
    }
    let new = note(places, number, stamp)?;
    let found = add_at(alloc, slots, number, dot, stamp);
    if new && found.is_err() {
        lift(places, number, stamp);
    }
    found
}

// Notes the stamps of the transaction of a number. After an `Err` some are noted.
pub(crate) fn note_all(places: &mut Places, number: u64, stamps: &[Stamp]) -> Result<(), NoMemory>
    ensures there { OnOk result ((s : StampOf) → In s stamps.now → has_place places.new.keys (place_of number s) ≡ true) }
    ensures kept { OnOk result ((p : Place) → has_place places.old.keys p ≡ true → has_place places.new.keys p ≡ true) }
    ensures from { OnOk result ((p : Place) → has_place places.new.keys p ≡ true → (has_place places.old.keys p ≡ true) ⊎ ((s : StampOf) × In s stamps.now × (p ≡ place_of number s))) }
{
    for stamp in stamps {
        note(places, number, stamp)?;
    }
    Ok(())
}
