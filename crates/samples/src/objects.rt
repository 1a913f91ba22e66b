// Objects and transactions for tests.
ghost use Rattle.std.specs.Prelude.{◌≡◌, ◌↔◌, length, map, IfOk, IsErr, string_bytes};
ghost use Rattle.ids_core.specs.Name.{IsName};
ghost use Rattle.ids_core.specs.declared.object.Sort.TheVariants as sort;
ghost use Rattle.tx_core.specs.declared.op.Op.TheVariants.{Inc};
ghost use Rattle.samples.specs.Samples.{inc_of, incs_of};

use ids_core::{BadName, Dot, Name, NoMemory, ObjectId, Sort};
use std::alloc::Global;
use tx_core::{Op, Tx, Update, Updates};
use vv_core::Vector;

/// The counter of that name. An `Err` says that it is no name.
pub fn counter(name: &str) -> Result<ObjectId, BadName>
    ensures taken { IfOk result (λ object. object ≡ record { sort = sort.Counter; name = name.now }) }
    ensures refused { IsErr result ↔ (IsName name.now → ⊥) }
{
    Ok(ObjectId {
        sort: Sort::Counter,
        name: Name::read(name.as_bytes())?,
    })
}

/// The update that adds a delta to a counter.
pub fn inc(object: &ObjectId, delta: i64) -> Update
    ensures { result ≡ inc_of object.now delta }
{
    Update {
        object: *object,
        op: Op::Inc { delta },
    }
}

/// The transaction that adds deltas to a counter, in their order.
pub fn inc_tx(
    alloc: Global,
    dot: Dot,
    rank: u64,
    snap: Vector,
    object: &ObjectId,
    deltas: &[i64],
) -> Result<Tx, NoMemory>
    ensures { IfOk result (λ tx. tx ≡ record { dot = dot; rank = rank; snap = snap; updates = incs_of object.now deltas.now }) }
{
    let mut updates = Updates::new(alloc);
    for delta in deltas {
        updates.push(inc(object, *delta))?;
    }
    Ok(Tx {
        dot,
        rank,
        snap,
        updates,
    })
}
