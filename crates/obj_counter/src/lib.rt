//! The counter: a sum of deltas.
#![tactic(auto)]

mod counter;

pub use counter::{CounterOp, CounterState, law_counter};
