//! Links between the centres of a system, each end for a thread of its own, and the rounds that senders and receivers
//! make over them.
#![tactic(auto)]

mod drains;
mod links;
mod puts;
mod receives;
mod rows;
mod sends;
mod takes;

pub use drains::drain_all;
pub use links::{Laid, Links};
pub use puts::send_round;
pub use receives::receive_all;
pub use sends::send_all;
pub use takes::{drain_round, take_round};
