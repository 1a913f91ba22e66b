//! What a run reads from, writes to and passes through: the traits, and what stands behind them.
#![tactic(auto)]

mod gate;
mod memory;
mod sink;
mod source;
mod std_streams;
mod steady;

pub use gate::{Call, CallToken, FreeGate, Gate};
pub use memory::{MemorySink, MemorySource};
pub use sink::{Sink, WriteFault};
pub use source::{Failed, Source};
pub use std_streams::{StdSink, StdSource};
pub use steady::{SteadySink, SteadySource};
