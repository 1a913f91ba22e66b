// What a kind of replicated objects is, and its laws.
ghost use Rattle.std.specs.Prelude.{◌≡◌, List, IfOk, OnOk, OnErr, fold};
ghost use Rattle.list_core.specs.Permutations.{Perm};
ghost use Rattle.ids_core.specs.declared.ids.Mark.{Mark};
ghost use Rattle.ids_core.specs.Kinds.{Commutes, Distinct};

use crate::ids::Mark;
use crate::memory::NoMemory;
use std::alloc::Global;

/// A kind of replicated objects whose operations may be taken in in any order (the commutative
/// replicated data types of Shapiro and others, "A comprehensive study of Convergent and Commutative
/// Replicated Data Types", INRIA RR-7506, 2011). What contracts see of a state is canonical: two
/// orders of the same operations end in equal states.
pub trait Kind {
    /// An operation.
    type Op;

    /// The state of an object.
    type State;

    /// The state before any operation.
    ghost start: { Self.State };

    /// The state after one more operation, under its mark.
    ghost step: { Self.State → (Mark × Self.Op) → Self.State };

    /// The state is that of these operations: the kind's definition, which knows no order of them.
    ghost is_state_of: { List (Mark × Self.Op) → Self.State → Type 0 };

    /// The state before any operation.
    fn empty(alloc: Global) -> Result<Self::State, NoMemory>
        ensures { IfOk result (λ state. state ≡ start) };

    /// Takes in one operation under its mark. An `Err` leaves the state as it was.
    fn fold(state: &mut Self::State, mark: &Mark, op: &Self::Op) -> Result<(), NoMemory>
        ensures ok { OnOk result (state.new ≡ step state.old (mark.now, op.now)) }
        ensures err { OnErr result (state.new ≡ state.old) };

    /// The same state again.
    fn copy(state: &Self::State) -> Result<Self::State, NoMemory>
        ensures { IfOk result (λ copy. copy ≡ state.now) };

    /// Operations with different identifiers commute.
    ghost commutes: { Commutes step };

    /// The fold of operations with different identifiers is the state that the definition gives.
    ghost defined: { (ops : List (Mark × Self.Op)) → Distinct ops → is_state_of ops (fold step start ops) };
}

/// Takes in marked operations in their order, from the state before any. Where their identifiers
/// differ, the state is that of the kind's definition.
pub fn fold_all<K: Kind>(alloc: Global, ops: &[(Mark, K::Op)]) -> Result<K::State, NoMemory>
where
    K::State: Drop,
    ensures state { IfOk result (λ state. state ≡ fold K.step K.start ops.now) }
    ensures meaning { Distinct ops.now → IfOk result (λ state. K.is_state_of ops.now state) }
{
    let mut state = K::empty(alloc)?;
    for (mark, op) in ops {
        K::fold(&mut state, mark, op)?;
    }
    Ok(state)
}

/// Operations with different identifiers end in one state, in every order and from every state.
pub fn law_order<K: Kind>()
    ensures { (start : K.State) (ops others : List (Mark × K.Op)) → Perm ops others → Distinct ops → fold K.step start ops ≡ fold K.step start others }
{}
