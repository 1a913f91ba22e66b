//! What a donor gives to a centre that joins late, the cut of its trail (a state transfer), and that it fixes all later
//! answers of that centre.
//!
//! The centre starts from the records that the donor applied, whatever they were, and from the rows, the base and the
//! mark of the bundle. Its trimmed vector is that of the bundle. So all these records are let go from the start, it
//! hands on later ones alone, and hops of the others do not matter.
#![tactic(auto)]

mod laws;

pub use laws::{law_cut, law_given, law_handed_on, law_one_cut, law_parts};
