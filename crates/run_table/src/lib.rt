//! The table of a run on one thread: centres behind a door that keeps them, clients, the logs of all actors, the links, and
//! the taps of the centres. A step of an actor changes it as the script says. The steps of a phase are dealt to its actors.
#![tactic(auto)]

mod dealing;
mod feeding;
mod looking;
mod opening;
mod table;
mod trails;
mod works;

pub use dealing::{Dealt, deal};
pub use feeding::feed_in;
pub use looking::{look_in, seen_at, tell_seen};
pub use table::Table;
pub use trails::trails_of;
pub use works::{Work, prune};
