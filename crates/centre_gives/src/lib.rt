//! The bundle that a centre gives to one that joins late (a state transfer): the cut of what it applied.
#![tactic(auto)]

mod clients;
mod giving;
mod parts;
mod rows;

pub use giving::give;
