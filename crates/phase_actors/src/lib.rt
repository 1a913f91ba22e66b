//! What each actor does in a phase that is played with threads: the clients their steps in turns, the operator its steps,
//! and the workers of a centre their rounds, over the hosts of the centres and the links between them, with the pace of
//! the rounds. The operator feeds the taps of the centres by their feeders, and clients look through readers of them.
#![tactic(auto)]

mod callers;
mod clients;
mod feeding;
mod looking;
mod operators;
mod pace;
mod receivers;
mod reporters;
mod scene;
mod senders;

pub use callers::Caller;
pub use clients::{Block, Player, play_clients};
pub use operators::operate_through;
pub use pace::Pace;
pub use receivers::{ReceiverEnd, close_over, receive_through};
pub use reporters::{prune_through, report_through};
pub use scene::Scene;
pub use senders::{SenderEnd, send_through};
