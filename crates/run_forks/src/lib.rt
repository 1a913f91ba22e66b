//! That all but the answers of the centres is fixed: where the deeds of one move may part, and that what happened by
//! the moves of a script is fixed by them.
#![tactic(auto)]

mod laws;

pub use laws::{law_forks, law_one_run};
