//! The map with add-wins keys and last-writer-wins words, whose operations may be taken in in any order.
#![tactic(auto)]

mod map;
mod put;

pub use map::{MapOp, MapState, law_live, law_value};
pub use put::Put;
