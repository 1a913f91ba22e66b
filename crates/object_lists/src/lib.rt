//! Lists of items, each of an object and found by it: an item is put behind those of its object, and
//! taken away at either end. What is listed of the operations of a transaction is put in together.
#![tactic(auto)]

mod entry;
mod fronts;
mod line;
mod lines;
mod lists;
mod turns;

pub use entry::Entry;
pub use fronts::drop_front;
pub use lists::ObjectLists;
pub use turns::{put_tx, take_first_tx, take_last_tx};
