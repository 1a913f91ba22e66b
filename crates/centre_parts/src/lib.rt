//! The parts of a centre: what it keeps as plain data, and which parts a centre can be made of.
#![tactic(auto)]

mod condition;
mod conditions;
mod laws;
mod notes;
mod part;
mod point;
mod rest;
mod settings;
mod told;
mod vectors;

pub use condition::{CONDITIONS, Condition};
pub use conditions::broken;
pub use laws::law_first_broken;
pub use part::{AppliedParts, CentreParts, Notes, Outbox, Sents};
