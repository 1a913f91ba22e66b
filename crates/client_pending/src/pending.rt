// Commits that are pending.
ghost use Rattle.std.specs.Prelude.{◌≡◌, ◌≤◌, ◌++◌, ◌∷◌, [], length, drop, flat_map, IfErr, OnOk, OnErr};
ghost use Rattle.std.specs.Bool.{OnFalse, OnTrue};
ghost use Rattle.ids_core.specs.declared.limits.TheConstants.{MOST_UPDATES};
ghost use Rattle.tx_core.specs.States.{fold_of};
ghost use Rattle.tx_core.specs.Operations.{ops_of};
ghost use Rattle.client_pending.specs.Folding.{FoldsPart};

use crate::same::are_same;
use crate::turns::{Index, put, take_txs};
use ids_core::{Mark, NoMemory, ObjectId};
use object_lists::{ObjectLists, drop_front};
use std::alloc::Global;
use std::marker::Model;
use tx_core::{Op, State, Tx};

/// The commits of a client that are not within its snapshot, seen as their list. Beside it stands for
/// each object the list of the operations on it, so that a read costs what is pending on its object,
/// and nothing for all else.
#[derive(Drop)]
pub struct Pending {
    txs: Vec<Tx>,
    index: Index,
}

impl Model for Pending {
    ghost use Rattle.std.specs.Prelude.{◌≤◌, List, length, All};
    ghost use Rattle.ids_core.specs.declared.limits.TheConstants.{MOST_UPDATES};
    ghost use Rattle.tx_core.specs.declared.tx.Tx.{Tx};
    ghost use Rattle.client_pending.specs.Indexes.{Finds};

    ghost Value = { List Tx };

    ghost view = { λ p. p.txs.items };

    ghost invariant = { λ p. Finds p.index p.txs.items × All (λ tx. length tx.updates ≤ MOST_UPDATES) p.txs.items };
}

impl Pending {
    /// No commit.
    pub fn new(alloc: Global) -> Self
        ensures { result ≡ [] }
    {
        Pending {
            txs: Vec::new(alloc),
            index: ObjectLists::new(alloc),
        }
    }

    /// The allocator.
    pub fn allocator(&self) -> Global {
        *self.txs.allocator()
    }

    /// The commits in their order.
    pub fn as_slice(&self) -> &[Tx]
        ensures { result.now ≡ self.now }
    {
        self.txs.as_slice()
    }

    /// Puts a commit of at most `MOST_UPDATES` updates at the end. An `Err` gives it back, and leaves all as it
    /// was. Time: logarithmic in the number of objects for each update.
    pub fn push(&mut self, tx: Tx) -> Result<(), Tx>
        requires { length tx.updates ≤ MOST_UPDATES }
        ensures ok { OnOk result (self.new ≡ self.old ++ tx ∷ []) }
        ensures err { IfErr result (λ back. (back ≡ tx) × (self.new ≡ self.old)) }
    {
        if self.txs.reserve(1).is_err() || put(&mut self.index, &tx).is_err() {
            return Err(tx);
        }
        self.txs.push_reserved(tx);
        Ok(())
    }

    /// Takes so many commits at the front away, at most as many as there are. It takes no memory.
    pub fn drop_front(&mut self, count: usize)
        requires { count ≤ length self.old }
        ensures { self.new ≡ drop count self.old }
    {
        take_txs(&mut self.index, &self.txs.as_slice()[..count]);
        drop_front(&mut self.txs, count);
    }

    /// Whether a commit may have an operation on an object: where it says no, none has. Time: logarithmic in
    /// the number of objects.
    pub fn may_change(&self, object: &ObjectId) -> bool
        ensures { OnFalse result (flat_map (ops_of object.now) self.now ≡ []) }
    {
        !self.index.get(object).is_empty()
    }

    /// Whether the operations of all commits on an object are these, in their order: where it says yes, they are.
    /// It takes no memory. Time: linear in their number.
    pub fn has_changes(&self, object: &ObjectId, marked: &[(Mark, Op)]) -> bool
        ensures { OnTrue result (flat_map (ops_of object.now) self.now ≡ marked.now) }
    {
        are_same(self.index.get(object), marked)
    }

    /// Folds the operations of all commits on an object, in their order, into its state. Where memory
    /// is refused the first ones alone are folded into it.
    pub fn fold(&self, object: &ObjectId, state: &mut State) -> Result<(), NoMemory>
        ensures all { OnOk result (state.new ≡ fold_of state.old (flat_map (ops_of object.now) self.now)) }
        ensures part { OnErr result (FoldsPart (flat_map (ops_of object.now) self.now) state.old state.new) }
    {
        fold_all(self.index.get(object), state)
    }
}

// Folds marked operations into a state, in their order. Where memory is refused the first ones alone are folded into
// it.
fn fold_all(marked: &[(Mark, Op)], state: &mut State) -> Result<(), NoMemory>
    ensures all { OnOk result (state.new ≡ fold_of state.old marked.now) }
    ensures part { OnErr result (FoldsPart marked.now state.old state.new) }
{
    for (mark, op) in marked {
        state.fold(mark, op)?;
    }
    Ok(())
}
