//! Bundles: what a centre gives to one that joins late (a state transfer, by a snapshot of what the donor keeps),
//! and which parts make one.
#![tactic(auto)]

mod bundle;
mod clients;
mod condition;
mod conditions;
mod laws;
mod part;
mod rest;
mod states;
mod vectors;

pub use bundle::{Bundle, Cause, Refused};
pub use condition::{CONDITIONS, Condition, MOST_DEPTH};
pub use laws::law_first_broken;
pub use part::{BundleParts, ClientPart, ClientParts, Rows};
pub use rest::are_apart;
pub use states::objects_ascend;
pub use vectors::{have_width, is_centre, is_over};
