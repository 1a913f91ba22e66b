//! The centres of a system with their trails, and the door to them on one thread.
#![tactic(auto)]

mod centres;
mod kept_door;

pub use centres::centres_of;
pub use kept_door::{KeptDoor, KeptPlace};
