//! The operations on an object that came between two vectors, which a centre tells in place of the object's state
//! where they are few.
#![tactic(auto)]

mod delta;
mod laws;
mod passed;

pub use delta::changes;
pub use laws::law_told;
pub use passed::{Passed, PassedObjects};
