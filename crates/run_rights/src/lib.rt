//! That in a book that fits no holder of a bounded counter ever falls below 0 (Balegas and others, SRDS 2015), where each
//! client reads a holder's cells before it takes, and takes no more than it read; and that the clients of each script do.
#![tactic(auto)]

mod laws;

pub use laws::{law_bounded, law_plain, law_rights, law_rights_read, law_steps, law_takes};
