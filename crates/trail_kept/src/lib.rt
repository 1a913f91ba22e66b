//! The entries of a trail that may change a centre, and what leaving out the others changes: nothing.
#![tactic(auto)]

mod laws;

pub use laws::law_left_out;
