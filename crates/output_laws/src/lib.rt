//! The laws of the output of runs whose order is fixed, on one thread or without a phase: what the program owes for its
//! input, and prints, is one output.
#![tactic(auto)]

mod laws;

pub use laws::{law_one_output, law_run_as_serial};
