//! The parts of a centre have bytes wherever none of the centre's records came too far.
#![tactic(auto)]

mod centre;
mod laws;
mod see;
mod states;

pub use centre::see_centre;
pub use laws::law_ranged;
