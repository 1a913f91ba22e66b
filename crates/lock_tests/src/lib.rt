//! Tests with threads: machines under a lock, links, and taps. One file a crate, named after it.
#![tactic(auto)]

#[cfg(test)]
mod held;
#[cfg(test)]
mod host_lock_tests;
#[cfg(test)]
mod mail_link_tests;
#[cfg(test)]
mod read_tap_tests;
