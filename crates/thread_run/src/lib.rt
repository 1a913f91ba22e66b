//! A script, played section by section, with threads in its phases.
#![tactic(auto)]

mod casting;
mod closing;
mod lending;
mod parts;
mod phases;
mod sections;
mod tapping;

pub use sections::run;
