//! The commits of a client that are not within its snapshot, found by the objects that they change
//! (the pending transactions of Zawirski and others, Middleware 2015, section 4).
#![tactic(auto)]

mod pending;
mod same;
mod turns;

pub use pending::Pending;
