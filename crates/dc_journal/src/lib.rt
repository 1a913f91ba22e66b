//! A data centre whose steps are kept in a journal on a disk: what it answered outlives a crash at any moment.
#![tactic(auto)]

mod answering;
mod ask_item;
mod asking;
mod batch;
mod journal_centre;
mod laws;
mod opening;
mod steps;

pub use answering::answer_all;
pub use ask_item::AskItem;
pub use batch::Batch;
pub use journal_centre::JournalCentre;
pub use laws::law_between_calls;
pub use opening::is_kept;
