//! The centres of a system, shared by threads: their hosts, and the door of each actor to them.
#![tactic(auto)]

mod columns;
mod host_door;
mod hosts;

pub use host_door::{HostDoor, HostPlace};
pub use hosts::Hosts;
