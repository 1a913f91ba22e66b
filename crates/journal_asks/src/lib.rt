//! The asks that the journal of a centre keeps, and their bytes.
#![tactic(auto)]

mod fits;
mod frames;
mod item;
mod kept_ask;

pub use kept_ask::{KeptAsk, by_of, is_kind};
