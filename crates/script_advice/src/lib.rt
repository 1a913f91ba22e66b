//! What to tell a user of an input that is no script: why its first line at fault is refused, what was expected there,
//! and the line itself. The line that is shown is that of the input, and all is printable ASCII; what the reason says is
//! text for people, and no contract speaks of it.
#![tactic(auto)]

mod before;
mod forms;
mod kinds;
mod limits;
mod lines;
mod near;
mod places;
mod refusal;
mod shown;
mod taps;
mod values;
mod words;

pub use refusal::advice;
