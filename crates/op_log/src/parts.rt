// The transactions of a log, taken apart.
ghost use Rattle.std.specs.Prelude.{◌≡◌, IfOk};
ghost use Rattle.std.specs.Map.{values_of};
ghost use Rattle.op_log.specs.RestParts.{parts_of};

use crate::slots::Slots;
use ids_core::NoMemory;
use list_core::List;
use std::alloc::Global;
use tx_core::RestParts;

// The transactions with their stamps, in the order of their numbers.
pub(crate) fn parts_of(alloc: Global, slots: &Slots) -> Result<RestParts, NoMemory>
    ensures { IfOk result (λ parts. parts ≡ parts_of (values_of slots.now.entries)) }
{
    let mut parts = List::new(alloc);
    for x in slots.values() {
        parts.push(x.part(alloc)?)?;
    }
    Ok(parts)
}
