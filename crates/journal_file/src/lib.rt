//! A journal of items on a disk: what was appended outlives a crash at any moment.
#![tactic(auto)]

mod append;
mod faults;
mod item;
mod journal;
mod laws;
mod opening;

pub use append::spell_all;
pub use faults::{JournalFault, OpenFault};
pub use item::Item;
pub use journal::{Journal, Unopened};
pub use laws::law_between_calls;
