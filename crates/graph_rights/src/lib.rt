//! That over a causally closed set of transactions the rights of a holder of a bounded counter are at least 0, where what
//! counts against them is checked as it is added.
#![tactic(auto)]

mod laws;

pub use laws::{law_account, law_rights_of, law_rights_over};
