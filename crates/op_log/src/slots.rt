// The transactions in the log, found by their numbers.
ghost use Rattle.std.specs.Prelude.{◌≡◌, ◌&&◌, ◌<◌, ◌++◌, ◌∷◌, [], not, true, All, IfOk, OnOk, OnErr};
ghost use Rattle.std.specs.Map.{values_of};
ghost use Rattle.list_core.specs.Members.{In};
ghost use Rattle.ids_core.specs.Ids.{same_dot};
ghost use Rattle.op_log.specs.declared.logged.Logged.{Logged};
ghost use Rattle.op_log.specs.Logs.{is_inside, is_inside_at, has_dot, stamped, with_stamp};
ghost use Rattle.op_log.specs.Tables.{Rises, IsKeyed, is_own_inside};

use crate::logged::Logged;
use crate::slot::Slot;
use ids_core::{Dot, NoMemory};
use std::alloc::Global;
use std::collections::BTreeMap;
use vv_core::{Stamp, Vector};

/// The transactions in the log by their numbers.
pub(crate) type Slots = BTreeMap<u64, Slot>;

// Keeps a transaction, whose number is above all others. An `Err` leaves all as it was.
pub(crate) fn keep(alloc: Global, slots: &mut Slots, x: Logged) -> Result<(), NoMemory>
    requires { All (λ e. e.0 < x.number) slots.old.entries }
    ensures ok { OnOk result (slots.new.entries ≡ slots.old.entries ++ (x.number, x) ∷ []) }
    ensures err { OnErr result (slots.new.entries ≡ slots.old.entries) }
{
    slots.insert(x.number, Slot::new(alloc, x)?)?;
    Ok(())
}

// Whether the transaction of a number is there with a stamp within the vector.
pub(crate) fn is_inside_at(slots: &Slots, number: u64, at: &Vector) -> bool
    requires keyed { IsKeyed slots.now.entries }
    requires rises { Rises (values_of slots.now.entries) }
    ensures { result ≡ is_inside_at at.now number (values_of slots.now.entries) }
{
    match slots.get(&number) {
        Some(x) => x.is_inside(at),
        None => false,
    }
}

// Whether the transaction of a number is there with a stamp within the vector, and none within the one before.
pub(crate) fn is_since(slots: &Slots, number: u64, before: &Vector, at: &Vector) -> bool
    requires keyed { IsKeyed slots.now.entries }
    requires rises { Rises (values_of slots.now.entries) }
    ensures { result ≡ (is_inside_at at.now number (values_of slots.now.entries) && not (is_inside_at before.now number (values_of slots.now.entries))) }
{
    match slots.get(&number) {
        Some(x) => x.came_since(before, at),
        None => false,
    }
}

// Whether the transaction of a number is there with the dot and a stamp within the vector.
pub(crate) fn is_own_inside(slots: &Slots, number: u64, dot: &Dot, at: &Vector) -> bool
    requires keyed { IsKeyed slots.now.entries }
    requires rises { Rises (values_of slots.now.entries) }
    ensures { result ≡ is_own_inside at.now dot.now number (values_of slots.now.entries) }
{
    match slots.get(&number) {
        Some(x) => has_inside(x, dot, at),
        None => false,
    }
}

// Whether a transaction has the dot and a stamp within the vector.
fn has_inside(x: &Slot, dot: &Dot, at: &Vector) -> bool
    ensures { result ≡ (same_dot x.now.tx.dot dot.now && is_inside at.now x.now) }
{
    x.has(dot) && x.is_inside(at)
}

// Whether the transaction of a number has the dot, which no other one has.
pub(crate) fn is_named(slots: &Slots, number: u64, dot: &Dot) -> bool
    requires keyed { IsKeyed slots.now.entries }
    requires rises { Rises (values_of slots.now.entries) }
    requires one { (x : Logged) → In x (values_of slots.now.entries) → same_dot x.tx.dot dot.now ≡ true → x.number ≡ number }
    ensures { result ≡ has_dot dot.now (values_of slots.now.entries) }
{
    match slots.get(&number) {
        Some(x) => x.has(dot),
        None => false,
    }
}

// Adds a stamp to the transaction of a number, if it has the dot: whether it has. No other transaction
// has it. An `Err` leaves all as it was.
pub(crate) fn add_at(
    alloc: Global,
    slots: &mut Slots,
    number: u64,
    dot: &Dot,
    stamp: &Stamp,
) -> Result<bool, NoMemory>
    requires keyed { IsKeyed slots.old.entries }
    requires rises { Rises (values_of slots.old.entries) }
    requires one { (x : Logged) → In x (values_of slots.old.entries) → same_dot x.tx.dot dot.now ≡ true → x.number ≡ number }
    ensures found { IfOk result (λ found. found ≡ has_dot dot.now (values_of slots.old.entries)) }
    ensures ok { OnOk result (values_of slots.new.entries ≡ with_stamp dot.now stamp.now (values_of slots.old.entries)) }
    ensures err { OnErr result (slots.new.entries ≡ slots.old.entries) }
    ensures keyed { IsKeyed slots.new.entries }
{
    match slots.get_mut(&number) {
        Some(x) => x.add_if(alloc, dot, stamp),
        None => Ok(false),
    }
}
