//! The add-wins set, whose operations may be taken in in any order.
#![tactic(auto)]

mod set;

pub use set::{SetOp, SetState, law_live};
