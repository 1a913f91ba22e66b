//! What the centres of a group are known to have: the told table of one centre, and what K centres know.
#![tactic(auto)]

mod laws;
mod told;

pub use laws::{
    law_all_known_reach, law_all_known_sound, law_later, law_learn_sound, law_stable_reach,
    law_stable_sound,
};
pub use told::Told;
