//! Journals of trails: a centre with a journal is asked what a trail has, its disk is opened again, and a line tells of it.
#![tactic(auto)]

mod asking;
mod entries;
mod journal;
mod journals;
mod steady;
mod told;

pub use asking::asks_in;
pub use journal::{journal_of, reopened};
pub use journals::{Journals, journals_of};
pub use told::{Told, write_told};
