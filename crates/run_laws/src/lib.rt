//! The laws of the books of runs: a script has one book where the order is fixed, on one thread or without a phase; and
//! the text of a book tells the values that were read, each of its read; and each look shows what its tap had.
#![tactic(auto)]

mod laws;

pub use laws::{law_looks, law_no_phase, law_one_book, law_one_script, law_value_lines};
