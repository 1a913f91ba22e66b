//! A centre with its journal in two files is asked what a trail has, and makes a checkpoint when it is due.
#![tactic(auto)]

mod asking;

pub use asking::{GROUP, ask_trail};
