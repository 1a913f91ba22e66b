//! Links: items go in at one end and come out in order at the other, each end with a thread of its own.
#![tactic(auto)]

mod ends;
mod law;
mod link;

pub use ends::{Giver, Taker};
pub use link::Link;
