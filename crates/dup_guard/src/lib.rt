//! What a centre knows of the clients' transactions: which it has already, and where each last one stands.
#![tactic(auto)]

mod guard;
mod noted;

pub use guard::Guard;
pub use noted::Noted;
