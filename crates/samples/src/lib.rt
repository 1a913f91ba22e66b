//! Identifiers, objects, transactions, vectors and a machine, as the crates of tests use them.
#![tactic(auto)]

mod gate;
mod ids;
mod objects;
mod vectors;

pub use gate::Gate;
pub use ids::{id, mark};
pub use objects::{counter, inc, inc_tx};
pub use vectors::{pair, single};
