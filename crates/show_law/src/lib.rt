//! That what a feed of a tap shows is the base of its centre.
#![tactic(auto)]

mod laws;

pub use laws::{
    law_entries_stand, law_feed, law_opening, law_show, law_shows_rise, law_state_stays, law_tap,
};
