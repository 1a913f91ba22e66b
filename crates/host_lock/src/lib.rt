//! A machine under a lock that threads share, with the proved history of all that it was asked.
#![tactic(auto)]

mod host;
mod law;
mod turns;

pub use host::{Host, Pass, Tried};
