//! Scripts: their settings and steps, the limits of their texts, and what each step leaves in a log.
#![tactic(auto)]

mod limits;
mod object_call;
mod rounds;
mod script;
mod step_list;
mod steps;
mod taps;

pub use limits::{LineCount, MAX_LINE, MAX_LINES};
pub use object_call::ObjectCall;
pub use rounds::{MOST_EVERY, MOST_MAILED, ROUNDS_BETWEEN_PRUNES, Role};
pub use script::{
    DEFAULT_CACHE, DEFAULT_ROUNDS, DEFAULT_THREADS, Header, MOST_ROUNDS, MOST_THREADS, Script,
};
pub use step_list::{Steps, StepsSeen};
pub use steps::{AskFault, ClientStep, OperatorStep, Section, Sections, Share, Step};
pub use taps::{Found, MOST_TAPPED, Show, TapState, Tapped, Taps};
