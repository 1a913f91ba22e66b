//! A journal that does not grow for ever: two files, of which one is live, and a checkpoint with which the other goes on.
#![tactic(auto)]

mod beginning;
mod entry;
mod faults;
mod generations;
mod laws;
mod mark;
mod opening;
mod pair;

pub use entry::Entry;
pub use faults::{PairFault, Side};
pub use laws::{law_live_size, law_one_state, law_pair_between_calls};
pub use mark::Mark;
pub use pair::{FLOOR, Opened, Pair, Unopened};
