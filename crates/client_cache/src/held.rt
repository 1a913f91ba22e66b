// What a cache keeps of an object.
ghost use Rattle.std.specs.Prelude.{◌≡◌, ◌≤◌, length, take, IfOk, OnOk, OnErr};
ghost use Rattle.tx_core.specs.States.{fold_of};

use ids_core::{Mark, NoMemory};
use object_lists::drop_front;
use std::alloc::Global;
use std::marker::Model;
use tx_core::{Op, State};
use vv_core::Vector;

/// A state of an object at a vector, seen with all that came to it. What came stands beside the state until it is
/// folded in, so that want of memory changes nothing that is seen.
#[derive(Drop)]
pub(crate) struct Held {
    vector: Vector,
    state: State,
    // The operations that are not folded into the state yet.
    rest: Vec<(Mark, Op)>,
}

impl Model for Held {
    ghost use Rattle.tx_core.specs.States.{fold_of, state_codes};
    ghost use Rattle.client_cache.specs.Caches.{StateAt};

    ghost Value = { StateAt };

    ghost coded = { Prim.hlevel state_codes };

    ghost view = { λ h. record { vector = h.vector; state = fold_of h.state h.rest.items } };
}

impl Held {
    // The state at the vector, to which nothing came.
    pub(crate) fn new(alloc: Global, at: &Vector, state: State) -> Held
        ensures { result ≡ record { vector = at.now; state = state } }
    {
        Held {
            vector: *at,
            state,
            rest: Vec::new(alloc),
        }
    }

    // The vector.
    pub(crate) fn vector(&self) -> Vector
        ensures { result ≡ self.now.vector }
    {
        self.vector
    }

    // The state, where all that came to it is folded in.
    pub(crate) fn state(&self) -> Result<&State, NoMemory>
        ensures { IfOk result (λ state. state.now ≡ self.now.state) }
    {
        if self.rest.is_empty() {
            Ok(&self.state)
        } else {
            Err(NoMemory)
        }
    }

    // Folds what came to the state into it, as far as there is memory for that.
    #[tactic(auto, using(crate::proofs::Folds::in_parts, crate::proofs::Folds::in_whole))]
    pub(crate) fn settle(&mut self)
        ensures { self.new ≡ self.old }
    {
        let count = fold_some(&mut self.state, self.rest.as_slice());
        if count < self.rest.len() {
            drop_front(&mut self.rest, count);
        } else {
            self.rest = Vec::new(*self.rest.allocator());
        }
    }

    // Brings the state to a vector, by the operations that came to it since. Nothing changes where memory is refused.
    pub(crate) fn bring(&mut self, at: &Vector, tail: Vec<(Mark, Op)>) -> Result<(), NoMemory>
        ensures ok { OnOk result (self.new ≡ record { vector = at.now; state = fold_of self.old.state tail.items }) }
        ensures err { OnErr result (self.new ≡ self.old) }
    {
        self.settle();
        if !self.rest.is_empty() {
            return Err(NoMemory);
        }
        self.vector = *at;
        self.rest = tail;
        Ok(())
    }
}

// Folds operations into a state, in their order, as many as there is memory for: how many.
fn fold_some(state: &mut State, marked: &[(Mark, Op)]) -> usize
    ensures count { result ≤ length marked.now }
    ensures folds { state.new ≡ fold_of state.old (take result marked.now) }
{
    for (count, (mark, op)) in marked.iter().enumerate() {
        match state.fold(mark, op) {
            Ok(()) => (),
            Err(NoMemory) => return count,
        }
    }
    marked.len()
}
