//! A phase, played with threads: the clients, the operator and the workers of each centre in threads of their own, over
//! the hosts of the centres and the links between them.
#![tactic(auto)]

mod begun;
mod blocks;
mod crews;
mod gathering;
mod idle;
mod threads;

pub use crews::Crew;
pub use threads::{Cast, Taps, play_in_threads};
