//! The forms of the program that keep the journals of centres in files of a folder: `journal DIR` makes them, and `recover
//! DIR` opens them again. Each centre has two files there, `centre-I.a.journal` and `centre-I.b.journal`, and the file
//! `settings` has the numbers that all share. No contract speaks of files; what is kept in them is that of `pair_centre`.
#![tactic(auto)]

mod fault;
mod folder;
mod making;
mod numbers;
mod opening;
mod told;
mod words;

pub use fault::Fault;
pub use folder::is_taken;
pub use making::journal_in;
pub use opening::recover_from;
pub use words::{DirForm, dir_form};
