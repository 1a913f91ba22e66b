//! A client's session: its snapshot, its commits, its open transaction and its cache, and what it asks
//! of a centre and hears (Middleware 2015).
#![tactic(auto)]

mod asks;
mod calls;
mod changes;
mod deltas;
mod folded;
mod hears;
mod past;
mod session;
mod views;

pub use hears::Heard;
pub use session::{Facts, Session};
