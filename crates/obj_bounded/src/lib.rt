//! The bounded counter (Balegas and others, SRDS 2015): a counter that never falls below 0, since each of its holders
//! takes from rights of its own. Its cells, each a counter, and the rights of a holder by their values.
#![tactic(auto)]

mod cell_names;
mod holder_rights;

pub use cell_names::{MOST_BOUNDED_NAME, MOST_HOLDERS, cell, cells, law_cells};
pub use holder_rights::rights;
