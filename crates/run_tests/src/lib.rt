//! Tests of scripts, texts and books, and of the top call with what plays a script, at concrete types:
//! one file a crate, named after it. What the program shows by its input and output is tested on the
//! built program.
#![tactic(auto)]

#[cfg(test)]
mod load_tests;
#[cfg(test)]
mod print_text_tests;
#[cfg(test)]
mod run_book_tests;
#[cfg(test)]
mod thread_run_tests;
#[cfg(test)]
mod top_call_tests;
