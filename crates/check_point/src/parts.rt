// The tables of a point, taken apart and made again.
ghost use Rattle.std.specs.Prelude.{◌≡◌, List as ListOf, IfOk};
ghost use Rattle.tx_core.specs.declared.part.StatePart.{StatePart as StatePartOf};
ghost use Rattle.check_point.specs.declared.part.Folded.{Folded as FoldedOf};
ghost use Rattle.check_point.specs.PointParts.{AscendByClient, AscendByObject, HasNumbers, HasStates};

use crate::numbers::NumberTable;
use crate::part::{Folded, Numbers};
use crate::states::States;
use crate::tables::{in_order, put};
use ids_core::NoMemory;
use indexmap::IndexMap;
use list_core::List;
use std::alloc::Global;
use tx_core::{StatePart, StateParts};

// The numbers of the clients, ascending by client.
pub(crate) fn number_parts(kept: &NumberTable, alloc: Global) -> Result<Numbers, NoMemory>
    ensures order { IfOk result AscendByClient }
    ensures told { IfOk result (HasNumbers kept.now.entries) }
    ensures only { IfOk result (λ parts. (others : ListOf FoldedOf) → AscendByClient others → HasNumbers kept.now.entries others → others ≡ parts) }
{
    let mut parts = List::new(alloc);
    for (client, number) in in_order(alloc, kept)? {
        parts.push(Folded { client, number })?;
    }
    Ok(parts)
}

// The states of the objects, ascending by object.
pub(crate) fn state_parts(kept: &States, alloc: Global) -> Result<StateParts, NoMemory>
    ensures order { IfOk result AscendByObject }
    ensures told { IfOk result (HasStates kept.now.entries) }
    ensures only { IfOk result (λ parts. (others : ListOf StatePartOf) → AscendByObject others → HasStates kept.now.entries others → others ≡ parts) }
{
    let mut parts = List::new(alloc);
    for (object, state) in in_order(alloc, kept)? {
        parts.push(StatePart { object, state })?;
    }
    Ok(parts)
}

// The table of the clients of the parts.
pub(crate) fn numbers_of(alloc: Global, parts: Numbers) -> Result<NumberTable, NoMemory>
    requires { AscendByClient parts }
    ensures { IfOk result (λ table. HasNumbers table.entries parts) }
{
    let mut table = IndexMap::new(alloc);
    for part in parts.into_vec() {
        put(&mut table, part.client, part.number)?;
    }
    Ok(table)
}

// The table of the objects of the parts.
pub(crate) fn states_of(alloc: Global, parts: StateParts) -> Result<States, NoMemory>
    requires { AscendByObject parts }
    ensures { IfOk result (λ table. HasStates table.entries parts) }
{
    let mut table = IndexMap::new(alloc);
    for part in parts.into_vec() {
        put(&mut table, part.object, part.state)?;
    }
    Ok(table)
}
