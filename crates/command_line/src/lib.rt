//! What the words of a command line ask of the program, read by `clap`, and the texts that it answers
//! with itself.
#![tactic(auto)]

mod app;
mod form;
mod laws;
mod matched;
mod num;
mod read;
mod texts;

pub use form::{Form, MOST_NUM};
pub use laws::law_one_form;
pub use read::form_of;
pub use texts::{help, usage_line, version_line};
