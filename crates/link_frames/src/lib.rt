//! The items of a link as bytes: each is the frame of a record with its hops. What an item tells, why it may tell no
//! record, and what the faults of a link make of it. Nothing here knows a link.
#![tactic(auto)]

mod frame;
mod frames;
mod laws;
mod reading;
mod spelling;
mod spoiling;

pub use frame::Frame;
pub use frames::{fits, see_updates};
pub use laws::{law_bend_is_bad, law_cut_is_short, law_decoded, law_item_read, law_one_item};
pub use reading::read_item;
pub use spelling::spell_item;
pub use spoiling::{bend, cut};
