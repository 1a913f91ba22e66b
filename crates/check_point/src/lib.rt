//! The states of all objects up to a vector, folded from the transactions within it (the checkpoints of
//! Zawirski and others, Middleware 2015).
#![tactic(auto)]

mod laws;
mod numbers;
mod part;
mod parts;
mod point;
mod states;
mod tables;

pub use laws::law_parting;
pub use part::{Folded, Numbers, PointParts};
pub use point::Point;
