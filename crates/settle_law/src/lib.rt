//! That a settled run has the same records at every running centre.
#![tactic(auto)]

mod laws;

pub use laws::law_settle;
