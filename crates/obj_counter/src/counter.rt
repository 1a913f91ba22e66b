// The counter.
ghost use Rattle.std.specs.Prelude.{◌≡◌, ◌<◌, ◌^◌, ◌+ℤ◌, List, IsOk, pos, fold};
ghost use Rattle.std.specs.Int.{w128, int_wrap};
ghost use Rattle.ids_core.specs.declared.ids.Mark.{Mark};
ghost use Rattle.obj_counter.specs.declared.counter.CounterOp.{CounterOp};
ghost use Rattle.obj_counter.specs.Counter.{step, deltas, total, sizes};

use ids_core::{Kind, Mark, NoMemory};
use std::alloc::Global;
use std::marker::Model;

/// An operation on a counter: it adds a delta.
#[derive(Clone, Copy)]
pub struct CounterOp {
    pub delta: i64,
}

/// The state of a counter, seen as a number (Shapiro and others, INRIA RR-7506: the op-based
/// counter). It is the sum of the deltas, and wraps at the ends of an `i128`. No call on it takes
/// memory.
#[derive(Clone, Copy)]
pub struct CounterState {
    sum: i128,
}

impl Model for CounterState {
    ghost use Rattle.std.specs.Prelude.{ℤ};

    ghost Value = { ℤ };

    ghost view = { λ s. s.sum };

    ghost inverse = { λ z. record { sum = z } };
}

impl CounterState {
    /// The state of a counter with that sum.
    pub fn of_sum(sum: i128) -> CounterState
        ensures { result ≡ sum }
    {
        CounterState { sum }
    }

    /// The sum.
    pub fn value(&self) -> i128
        ensures { result ≡ self.now }
    {
        self.sum
    }
}

impl Kind for CounterState {
    ghost use Rattle.std.specs.Prelude.{pos};
    ghost use Rattle.obj_counter.specs.Counter.{step, IsStateOf};
    ghost use Rattle.obj_counter.specs.Laws.{step_commutes, fold-step_defined};

    type Op = CounterOp;

    type State = CounterState;

    ghost start = { pos 0 };

    ghost step = { step };

    ghost is_state_of = { IsStateOf };

    fn empty(_: Global) -> Result<CounterState, NoMemory>
        ensures { result ≡ Ok (pos 0) }
    {
        Ok(CounterState { sum: 0 })
    }

    fn fold(state: &mut CounterState, mark: &Mark, op: &CounterOp) -> Result<(), NoMemory>
        ensures ok { IsOk result }
        ensures state { state.new ≡ step state.old (mark.now, op.now) }
    {
        state.sum = add_wrapped(state.sum, i128::from(op.delta));
        Ok(())
    }

    fn copy(state: &CounterState) -> Result<CounterState, NoMemory>
        ensures { result ≡ Ok state.now }
    {
        Ok(*state)
    }

    ghost commutes = { step_commutes };

    ghost defined = { fold-step_defined };
}

/// The operations of a list make the sum of their deltas: wrapped, and unwrapped where the sizes of
/// the deltas together stay below 2^127.
pub fn law_counter()
    ensures wraps { (ops : List (Mark × CounterOp)) → fold step (pos 0) ops ≡ int_wrap w128 (total (deltas ops)) }
    ensures exact { (ops : List (Mark × CounterOp)) → sizes (deltas ops) < 2 ^ 127 → fold step (pos 0) ops ≡ total (deltas ops) }
{}

fn add_wrapped(sum: i128, delta: i128) -> i128
    ensures { result ≡ int_wrap w128 (sum +ℤ delta) }
{
    sum.wrapping_add(delta)
}
