// The numbers of the transactions in the log, found by their dots.
ghost use Rattle.std.specs.Prelude.{◌≡◌, ◌<◌, ◌^◌, false, All, Some, OnOk, length};
ghost use Rattle.std.specs.Map.{lookup, values_of};
ghost use Rattle.std.specs.BTreeMap.{is_at};
ghost use Rattle.ids_core.specs.Ids.{same_dot};
ghost use Rattle.ids_core.specs.Orders.{dot_cmp};
ghost use Rattle.ids_core.specs.declared.ids.Dot.{Dot};
ghost use Rattle.op_log.specs.Logs.{mine_in};
ghost use Rattle.op_log.specs.Tables.{Rises, IsKeyed, Names, HasFits};

use crate::slots::{Slots, is_own_inside};
use ids_core::{Dot, NoMemory};
use std::collections::BTreeMap;
use vv_core::Vector;

/// The numbers of the transactions by their dots.
pub(crate) type Dots = BTreeMap<Dot, u64>;

// Notes the number of a dot. An `Err` leaves all as it was.
pub(crate) fn name(dots: &mut Dots, dot: &Dot, number: u64) -> Result<(), NoMemory>
    ensures fits { dot.now.number < 2 ^ 64 }
    ensures there { OnOk result (lookup (is_at (dot_cmp dot.now)) dots.new.entries ≡ Some number) }
    ensures apart { (d : Dot) → same_dot dot.now d ≡ false → lookup (is_at (dot_cmp d)) dots.new.entries ≡ lookup (is_at (dot_cmp d)) dots.old.entries }
{
    let _number = dot.number;
    dots.insert(*dot, number)?;
    Ok(())
}

// Forgets a dot.
pub(crate) fn forget(dots: &mut Dots, dot: &Dot)
    ensures { (d : Dot) → same_dot dot.now d ≡ false → lookup (is_at (dot_cmp d)) dots.new.entries ≡ lookup (is_at (dot_cmp d)) dots.old.entries }
{
    dots.remove(dot);
}

// The greatest number of a client's transactions with a stamp within the vector, 0 for none: from the
// client's last one back to the first that has.
pub(crate) fn mine_of(dots: &Dots, slots: &Slots, client: u32, at: &Vector) -> u64
    requires keyed { IsKeyed slots.now.entries }
    requires rises { Rises (values_of slots.now.entries) }
    requires names { Names dots.now.entries (values_of slots.now.entries) }
    requires fits { HasFits (values_of slots.now.entries) }
    ensures { result ≡ mine_in client at.now (values_of slots.now.entries) }
{
    let first = Dot { client, number: 0 };
    let last = Dot {
        client,
        number: u64::MAX,
    };
    let mut known = dots.range(first..=last);
    while let Some((dot, number)) = known.next_back() {
        if is_own_inside(slots, *number, dot, at) {
            return dot.number;
        }
    }
    0
}
