//! What a centre makes of a bundle: a guard, a point and a log.
#![tactic(auto)]

mod made;

pub use made::law_made;
