//! The law of the shows of a run: what its taps show is what the trails of their centres have.
#![tactic(auto)]

mod laws;

pub use laws::law_book_shows;
