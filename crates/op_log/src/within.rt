// Copies of the transactions with a stamp within a vector.
ghost use Rattle.std.specs.Prelude.{◌≡◌, ◌||◌, ℕ, true, map, filter, IfOk, OnOk};
ghost use Rattle.std.specs.List.Sorted.{IsStrictlySortedBy};
ghost use Rattle.std.specs.Map.{values_of};
ghost use Rattle.std.specs.Ordering.{nat_cmp};
ghost use Rattle.op_log.specs.Logs.{within_of};
ghost use Rattle.stamp_index.specs.Places.{is_reached, is_numbered, HasFitNumbers};
ghost use Rattle.op_log.specs.Places.{is_among, HasReached, IsPlaced};
ghost use Rattle.op_log.specs.Tables.{found_of, Rises, IsKeyed};

use crate::slots::Slots;
use ids_core::NoMemory;
use stamp_index::{Places, entry, reached};
use std::alloc::Global;
use std::collections::BTreeSet;
use tx_core::Tx;
use vv_core::Vector;

/// The numbers of transactions.
type Numbers = BTreeSet<u64>;

// Copies of the transactions with a stamp within the vector, in the order of their numbers.
pub(crate) fn copies_within(
    alloc: Global,
    slots: &Slots,
    places: &Places,
    base: &Vector,
) -> Result<Vec<Tx>, NoMemory>
    requires keyed { IsKeyed slots.now.entries }
    requires rises { Rises (values_of slots.now.entries) }
    requires placed { IsPlaced places.now.keys (values_of slots.now.entries) }
    requires fit { HasFitNumbers places.now.keys }
    ensures { IfOk result (λ txs. txs.items ≡ map (λ x. x.tx) (within_of base.now (values_of slots.now.entries))) }
{
    let numbers = numbers_within(alloc, places, base)?;
    copies_of(alloc, slots, &numbers)
}

// The numbers of these transactions.
fn numbers_within(alloc: Global, places: &Places, base: &Vector) -> Result<Numbers, NoMemory>
    requires { HasFitNumbers places.now.keys }
    ensures there { IfOk result (λ ns. (n : ℕ) → is_among ns.keys n ≡ true → HasReached base.now places.now.keys n) }
    ensures all { IfOk result (λ ns. (n : ℕ) → HasReached base.now places.now.keys n → is_among ns.keys n ≡ true) }
{
    let mut numbers = BTreeSet::new(alloc);
    for centre in 0..base.width() + 1 {
        note_numbers(&mut numbers, places, centre, entry(base, centre))?;
    }
    Ok(numbers)
}

// Notes the numbers of the places of a centre up to a number.
fn note_numbers(
    numbers: &mut Numbers,
    places: &Places,
    centre: u8,
    seq: u32,
) -> Result<(), NoMemory>
    requires { HasFitNumbers places.now.keys }
    ensures { OnOk result ((n : ℕ) → is_among numbers.new.keys n ≡ (is_among numbers.old.keys n || is_numbered (filter (is_reached centre seq) places.now.keys) n)) }
{
    for place in reached(places, centre, seq) {
        numbers.insert(place.number)?;
    }
    Ok(())
}

// Copies of the transactions that are found at the numbers.
fn copies_of(alloc: Global, slots: &Slots, numbers: &Numbers) -> Result<Vec<Tx>, NoMemory>
    ensures copies { IfOk result (λ txs. txs.items ≡ map (λ x. x.tx) (found_of slots.now.entries numbers.now.keys)) }
    ensures ordered { IsStrictlySortedBy nat_cmp numbers.now.keys }
{
    let mut txs = Vec::new(alloc);
    for number in numbers {
        if let Some(x) = slots.get(number) {
            txs.push(x.tx().copy()?)?;
        }
    }
    Ok(txs)
}
