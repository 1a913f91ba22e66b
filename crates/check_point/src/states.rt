// The states that transactions change.
ghost use Rattle.std.specs.Prelude.{◌≡◌, ◌||◌, cond, All, flat_map, IfOk, OnOk};
ghost use Rattle.ids_core.specs.Ids.{same_object};
ghost use Rattle.ids_core.specs.declared.object.ObjectId.{ObjectId};
ghost use Rattle.tx_core.specs.States.{step, fold_of};
ghost use Rattle.tx_core.specs.Operations.{ops_of};
ghost use Rattle.check_point.specs.Operations.{touches, is_touched};
ghost use Rattle.check_point.specs.Points.{has_state, state_in, state_over, HasFewUpdates};

use ids_core::{Mark, NoMemory, ObjectId, OpId};
use indexmap::IndexMap;
use std::alloc::Global;
use tx_core::{Op, State, Tx};

/// Objects with a state each, in the order in which they were first seen.
pub(crate) type States = IndexMap<ObjectId, State>;

// The state that is kept of an object, again, or the empty one of its kind where none is.
pub(crate) fn copy_of(kept: &States, alloc: Global, object: &ObjectId) -> Result<State, NoMemory>
    ensures { IfOk result (λ state. state ≡ state_in kept.now.entries object.now) }
{
    match kept.get(object) {
        Some(state) => state.copy(),
        None => State::empty(alloc, object.sort),
    }
}

// The states of the objects that the transactions change, as they are after these. Time: linear in the
// operations and in the states that they change.
#[tactic(auto, using(crate::proofs::Entries::or_next))]
pub(crate) fn changed_states(kept: &States, alloc: Global, txs: &[Tx]) -> Result<States, NoMemory>
    requires { All HasFewUpdates txs.now }
    ensures known { IfOk result (λ changed. (o : ObjectId) → has_state changed.entries o ≡ is_touched o txs.now) }
    ensures states { IfOk result (λ changed. (o : ObjectId) → state_over changed.entries kept.now.entries o ≡ fold_of (state_in kept.now.entries o) (flat_map (ops_of o) txs.now)) }
{
    let mut changed = IndexMap::new(alloc);
    for tx in txs {
        change_by(&mut changed, kept, alloc, tx)?;
    }
    Ok(changed)
}

// Folds the operations of a transaction.
#[tactic(auto, using(crate::proofs::Entries::or_turn))]
fn change_by(changed: &mut States, kept: &States, alloc: Global, tx: &Tx) -> Result<(), NoMemory>
    requires { HasFewUpdates tx.now }
    ensures known { OnOk result ((o : ObjectId) → has_state changed.new.entries o ≡ (has_state changed.old.entries o || touches o tx.now)) }
    ensures states { OnOk result ((o : ObjectId) → state_over changed.new.entries kept.now.entries o ≡ fold_of (state_over changed.old.entries kept.now.entries o) (ops_of o tx.now)) }
{
    for (place, update) in tx.updates.as_slice().iter().enumerate() {
        let id = OpId {
            dot: tx.dot,
            place: place as u16,
        };
        let mark = Mark { rank: tx.rank, id };
        change(changed, kept, alloc, &update.object, &mark, &update.op)?;
    }
    Ok(())
}

// Folds one operation into the state of its object. A state that was not changed yet is first taken over
// from those that are kept.
fn change(
    changed: &mut States,
    kept: &States,
    alloc: Global,
    object: &ObjectId,
    mark: &Mark,
    op: &Op,
) -> Result<(), NoMemory>
    ensures known { OnOk result ((o : ObjectId) → has_state changed.new.entries o ≡ (same_object object.now o || has_state changed.old.entries o)) }
    ensures states { OnOk result ((o : ObjectId) → state_over changed.new.entries kept.now.entries o ≡ cond (same_object object.now o) (step (state_over changed.old.entries kept.now.entries o) (mark.now, op.now)) (state_over changed.old.entries kept.now.entries o)) }
{
    match changed.get_mut(object) {
        Some(state) => state.fold(mark, op),
        None => {
            let mut state = copy_of(kept, alloc, object)?;
            state.fold(mark, op)?;
            changed.insert(*object, state)?;
            Ok(())
        }
    }
}
