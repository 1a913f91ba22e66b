//! Tests of clients and centres, and of what they say to one another, with asks and answers that no run
//! has: one file a crate, named after it.
#![tactic(auto)]

#[cfg(test)]
mod client_cache_tests;
#[cfg(test)]
mod client_pending_tests;
#[cfg(test)]
mod client_session_tests;
#[cfg(test)]
mod client_stub_tests;
#[cfg(test)]
mod dc_centre_parts;
#[cfg(test)]
mod dc_centre_peers;
#[cfg(test)]
mod dc_talk_tests;
#[cfg(test)]
mod dc_worker_tests;
#[cfg(test)]
mod printed;
#[cfg(test)]
mod records;
