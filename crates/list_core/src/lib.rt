//! Lists: their type, what stands before an element, members, the first of several choices, an
//! element brought to the front, and numbers in a place of a fixed length. Mostly definitions and
//! lemmas, for the crates above.
#![tactic(auto)]

mod forward;
mod list;

pub use forward::bring_forward;
pub use list::List;
