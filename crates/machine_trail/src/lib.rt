//! One-thread machines, and the trail of what one was asked.
#![tactic(auto)]

mod machine;

pub use machine::{Entry, Kept, Machine, Trail};
