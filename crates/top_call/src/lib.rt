//! The top call of the program: reads a script, plays it, and writes what the clients see.
#![tactic(auto)]

mod alone;
mod ending;
mod engine;
mod input;
mod refusal;
mod stream;
mod threads;
mod top;

pub use alone::swift_alone;
pub use ending::Ended;
pub use engine::Fault;
pub use threads::form_with_threads;
pub use top::swift_main;
