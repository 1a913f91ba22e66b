//! Vectors: one number for each centre, kept inline, with the laws of their order.
#![tactic(auto)]

mod entries;
mod laws;
mod stamp;
mod vector;

pub use laws::{law_join_sound, law_kth_sound, law_meet_sound, law_reach, law_zero_sound};
pub use stamp::{Lack, Stamp};
pub use vector::Vector;
