//! The text of a load: the values that its clients read behind the last phase.
#![tactic(auto)]

mod last;
mod reads;

pub use last::last_phase;
pub use reads::load_text;
