//! An index of the stamps of transactions: where each stands, by its centre and number, so that those
//! within a vector are found at the beginning of each centre's.
#![tactic(auto)]

mod places;
mod stamps;

pub use places::{Place, Places, first_reached, lift, note, reached};
pub use stamps::{entry, is_any_within};
