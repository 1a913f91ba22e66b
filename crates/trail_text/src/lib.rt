//! The text of trails: what each centre was asked and what it answered, and what each read stands on.
#![tactic(auto)]

mod ask;
mod bases;
mod entry;
mod say;
mod trail;

pub use trail::trail_text;
