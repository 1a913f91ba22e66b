//! The system on one thread: centres that a door owns, clients, and an operator. A world plays events in any order,
//! and a script step by step; the book of what happened fits in either case.
#![tactic(auto)]

mod event;
mod finding;
mod phases;
mod playing;
mod sections;
mod world;

pub use event::{Event, Played};
pub use sections::{serial, serial_with};
pub use world::World;
