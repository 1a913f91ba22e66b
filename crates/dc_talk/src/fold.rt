// Folds of a transaction's updates into the state of an object.
ghost use Rattle.std.specs.Prelude.{◌≡◌, ◌≤◌, length, OnOk};
ghost use Rattle.ids_core.specs.declared.limits.TheConstants.{MOST_UPDATES};
ghost use Rattle.tx_core.specs.Operations.{ops_from};
ghost use Rattle.tx_core.specs.States.{fold_of};

use ids_core::{Dot, Mark, NoMemory, ObjectId, OpId};
use tx_core::{State, Update};

/// Folds the updates of one object, out of those of a transaction with this rank and dot, into the
/// object's state. Where memory is refused the state may hold a part of them.
pub fn fold_updates(
    state: &mut State,
    object: &ObjectId,
    rank: u64,
    dot: &Dot,
    updates: &[Update],
) -> Result<(), NoMemory>
    requires { length updates.now ≤ MOST_UPDATES }
    ensures { OnOk result (state.new ≡ fold_of state.old (ops_from object.now rank dot.now 0 updates.now)) }
{
    for (place, update) in updates.iter().enumerate() {
        if update.object == *object {
            let id = OpId {
                dot: *dot,
                place: place as u16,
            };
            state.fold(&Mark { rank, id }, &update.op)?;
        }
    }
    Ok(())
}
