//! Why the states that are folded up to a vector, and the transactions that are kept beside them, tell what
//! the whole list of applied records tells.
#![tactic(auto)]

mod laws;
mod mines;
mod served;
mod standing;

pub use laws::{law_split, law_split_steps, law_stand_for, law_stand_for_steps};
pub use mines::{Mine, Mines, tell_mine};
pub use served::{Served, ServedStates, first_inside, serve};
pub use standing::{keep, mine_at, prune, state_at};
