//! Plays the steps of a client over any door to the centres: the calls of its session, what it asks under
//! which fault, and the lines that it is told (Zawirski and others, Middleware 2015, sections 3 and 4); the
//! steps of a bounded counter, which are calls on its cells (Balegas and others, SRDS 2015); and the steps
//! of the operator.
#![tactic(auto)]

mod again;
mod asks;
mod bounded;
mod calls;
mod fetch;
mod flush;
mod lines;
mod notes;
mod operator;
mod purpose;
mod send;
mod stub;

pub use operator::operate;
pub use stub::Stub;
