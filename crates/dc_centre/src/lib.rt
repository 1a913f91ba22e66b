//! A data centre on one thread: what it holds, what it answers, and the trails that it stands for.
#![tactic(auto)]

mod applied;
mod applied_parts;
mod asks;
mod centre;
mod outbox;
mod outbox_parts;
mod parts;
mod peers;

pub use centre::Centre;
pub use parts::Refusal;
