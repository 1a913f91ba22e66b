// The operations of transactions with a stamp within a vector, taken out of the chains.
ghost use Rattle.std.specs.Prelude.{◌≡◌, ◌⊎◌, false, filter};
ghost use Rattle.std.specs.Bool.{OnFalse};
ghost use Rattle.std.specs.Map.{values_of};
ghost use Rattle.list_core.specs.Members.{In};
ghost use Rattle.ids_core.specs.Ids.{same_object};
ghost use Rattle.ids_core.specs.declared.object.ObjectId.{ObjectId};
ghost use Rattle.vv_core.specs.Vectors.{at};
ghost use Rattle.tx_core.specs.declared.tx.Update.{Update as UpdateOf};
ghost use Rattle.op_log.specs.declared.logged.Logged.{Logged};
ghost use Rattle.stamp_index.specs.declared.places.Place.{Place as PlaceOf};
ghost use Rattle.stamp_index.specs.Places.{HasFitNumbers, reached_of};
ghost use Rattle.op_log.specs.Places.{IsPlaced};
ghost use Rattle.object_lists.specs.Listed.{listed};
ghost use Rattle.op_log.specs.Tables.{stays, Rises, IsKeyed, Finds, Ascends, Lacks, HasCell, IsSwept, MaySwept, StaysSwept};

use crate::chains::{Cell, Chains};
use crate::slots::{Slots, is_inside_at};
use ids_core::ObjectId;
use stamp_index::{Places, entry, reached};
use tx_core::Update;
use vv_core::Vector;

// Takes the operations of the transactions with a stamp within the vector out of the chains, and the
// chains away that have none left. A chain that none of these transactions touched is not looked at.
pub(crate) fn sweep_chains(chains: &mut Chains, slots: &Slots, places: &Places, base: &Vector)
    requires keyed { IsKeyed slots.now.entries }
    requires rises { Rises (values_of slots.now.entries) }
    requires placed { IsPlaced places.now.keys (values_of slots.now.entries) }
    requires fit { HasFitNumbers places.now.keys }
    requires finds { Finds chains.old (values_of slots.now.entries) }
    ensures { (o : ObjectId) → IsSwept base.now (values_of slots.now.entries) chains.new o }
{
    for centre in 0..base.width() + 1 {
        sweep_centre(chains, slots, places, centre, base);
    }
}

// The same for the stamps of one centre.
fn sweep_centre(chains: &mut Chains, slots: &Slots, places: &Places, centre: u8, base: &Vector)
    requires keyed { IsKeyed slots.now.entries }
    requires rises { Rises (values_of slots.now.entries) }
    requires fit { HasFitNumbers places.now.keys }
    requires may { MaySwept base.now (values_of slots.now.entries) chains.old }
    ensures may { MaySwept base.now (values_of slots.now.entries) chains.new }
    ensures kept { StaysSwept base.now (values_of slots.now.entries) chains.old chains.new }
    ensures swept { (p : PlaceOf) → In p (reached_of base.now centre places.now.keys) → (x : Logged) → In x (values_of slots.now.entries) → x.number ≡ p.number → (u : UpdateOf) → In u x.tx.updates → IsSwept base.now (values_of slots.now.entries) chains.new u.object }
{
    for place in reached(places, centre, entry(base, centre)) {
        sweep_number(chains, slots, place.number, base);
    }
}

// Sweeps the chains that the transaction of a number touched.
fn sweep_number(chains: &mut Chains, slots: &Slots, number: u64, base: &Vector)
    requires keyed { IsKeyed slots.now.entries }
    requires rises { Rises (values_of slots.now.entries) }
    requires may { MaySwept base.now (values_of slots.now.entries) chains.old }
    ensures may { MaySwept base.now (values_of slots.now.entries) chains.new }
    ensures kept { StaysSwept base.now (values_of slots.now.entries) chains.old chains.new }
    ensures swept { (x : Logged) → In x (values_of slots.now.entries) → x.number ≡ number → (u : UpdateOf) → In u x.tx.updates → IsSwept base.now (values_of slots.now.entries) chains.new u.object }
{
    if let Some(x) = slots.get(&number) {
        sweep_updates(chains, slots, number, x.updates(), base);
    }
}

// Sweeps the chains of the objects of updates of the transaction of a number.
fn sweep_updates(chains: &mut Chains, slots: &Slots, number: u64, updates: &[Update], base: &Vector)
    requires keyed { IsKeyed slots.now.entries }
    requires rises { Rises (values_of slots.now.entries) }
    requires may { MaySwept base.now (values_of slots.now.entries) chains.old }
    requires has { (u : UpdateOf) → In u updates.now → HasCell (values_of slots.now.entries) u.object number }
    ensures may { MaySwept base.now (values_of slots.now.entries) chains.new }
    ensures kept { StaysSwept base.now (values_of slots.now.entries) chains.old chains.new }
    ensures swept { (u : UpdateOf) → In u updates.now → IsSwept base.now (values_of slots.now.entries) chains.new u.object }
{
    for update in updates {
        sweep_at(chains, slots, &update.object, number, base);
    }
}

// Sweeps the chain of an object, which the transaction of a number touched.
fn sweep_at(chains: &mut Chains, slots: &Slots, object: &ObjectId, number: u64, base: &Vector)
    requires keyed { IsKeyed slots.now.entries }
    requires rises { Rises (values_of slots.now.entries) }
    requires may { MaySwept base.now (values_of slots.now.entries) chains.old }
    requires has { HasCell (values_of slots.now.entries) object.now number }
    ensures may { MaySwept base.now (values_of slots.now.entries) chains.new }
    ensures kept { StaysSwept base.now (values_of slots.now.entries) chains.old chains.new }
    ensures swept { IsSwept base.now (values_of slots.now.entries) chains.new object.now }
{
    sweep_chain(chains, slots, object, number, base);
}

// Leaves of the chain of an object what stays, or all where it has no operation of the number's transaction.
// That it has one is told by a search, so a chain that was swept before is not walked again.
fn sweep_chain(chains: &mut Chains, slots: &Slots, object: &ObjectId, number: u64, base: &Vector)
    requires keyed { IsKeyed slots.now.entries }
    requires rises { Rises (values_of slots.now.entries) }
    requires ascends { Ascends (listed chains.old object.now) }
    ensures there { (listed chains.new object.now ≡ filter (stays base.now (values_of slots.now.entries)) (listed chains.old object.now)) ⊎ ((listed chains.new object.now ≡ listed chains.old object.now) × Lacks number (listed chains.old object.now)) }
    ensures apart { (o : ObjectId) → same_object object.now o ≡ false → listed chains.new o ≡ listed chains.old o }
{
    if has_number(chains.get(object), number) {
        leave(chains, slots, object, base);
    }
}

// Leaves of the chain of an object what stays.
fn leave(chains: &mut Chains, slots: &Slots, object: &ObjectId, base: &Vector)
    requires keyed { IsKeyed slots.now.entries }
    requires rises { Rises (values_of slots.now.entries) }
    ensures there { listed chains.new object.now ≡ filter (stays base.now (values_of slots.now.entries)) (listed chains.old object.now) }
    ensures apart { (o : ObjectId) → same_object object.now o ≡ false → listed chains.new o ≡ listed chains.old o }
{
    chains.retain(object, |cell| stays(slots, cell, base));
}

// Whether an operation is of the transaction of the number. Their numbers do not fall.
fn has_number(chain: &[Cell], number: u64) -> bool
    requires { Ascends chain.now }
    ensures { OnFalse result (Lacks number chain.now) }
{
    let before = chain.partition_point(|cell| cell.tx < number);
    if before < chain.len() {
        chain[before].tx == number
    } else {
        false
    }
}

// Whether an operation is of a transaction without a stamp within the vector.
fn stays(slots: &Slots, cell: &Cell, base: &Vector) -> bool
    requires keyed { IsKeyed slots.now.entries }
    requires rises { Rises (values_of slots.now.entries) }
    ensures { result ≡ stays base.now (values_of slots.now.entries) cell.now }
{
    !is_inside_at(slots, cell.tx, base)
}
