//! The records that a centre of a history has, and those that it hands on: which of them can be delivered, and so have a frame.
#![tactic(auto)]

mod laws;

pub use laws::{law_carried, law_modest, law_sent_fits};
