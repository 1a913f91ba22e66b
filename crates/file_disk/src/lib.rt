//! The disk over one file of the operating system. What this crate takes for granted is said at `FileDisk`.
#![tactic(auto)]

mod file;
mod opening;
mod record;

pub use file::FileDisk;
