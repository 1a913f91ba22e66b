//! That the log of a client is that of the steps that it took, one after another, and what holds of all deeds of a step.
#![tactic(auto)]

mod laws;

pub use laws::{law_chain, law_each_deed, law_quiet};
