//! The transactions of a centre that are not folded into its checkpoint yet, with all their stamps
//! (the update logs of Zawirski and others, Middleware 2015), found by number, by dot, by stamp
//! and by object.
#![tactic(auto)]

mod chains;
mod dots;
mod log;
mod logged;
mod parts;
mod slot;
mod slots;
mod stamp_list;
mod stamps;
mod sweep;
mod take;
mod within;

pub use chains::Cell;
pub use log::Log;
pub use logged::Logged;
pub use stamp_list::StampList;
