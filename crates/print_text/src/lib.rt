//! The text of lines and of logs.
#![tactic(auto)]

mod line;
mod text;
mod value;

pub use line::{write_lacking, write_line, write_named, write_object, write_vector};
pub use text::{text_of, write_deed};
