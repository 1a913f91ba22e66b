// Scripts.
use crate::steps::Sections;
use crate::taps::Taps;

/// How many objects a client's cache holds where no line says it.
pub const DEFAULT_CACHE: u32 = 1_024;

/// What the first two lines of a script say.
#[derive(Clone, Copy)]
pub struct Header {
    /// How many centres there are, from 1 to 8.
    pub n: u8,
    /// How many centres have to know an update before it is stable, from 1 to `n`.
    pub k: u8,
    /// How many clients there are, from 1 to 1,024.
    pub clients: u32,
}

/// How many threads play a phase where no line says it.
pub const DEFAULT_THREADS: u32 = 4;

/// The most threads that play a phase.
pub const MOST_THREADS: u32 = 16;

/// How many rounds a worker makes in a phase where no line says it.
pub const DEFAULT_ROUNDS: u32 = 32;

/// The most rounds of a worker in a phase.
pub const MOST_ROUNDS: u32 = 1_000;

/// A script: its settings and its steps.
#[derive(Drop)]
pub struct Script {
    /// How many centres there are, from 1 to 8.
    pub n: u8,
    /// How many centres have to know an update before it is stable, from 1 to `n`.
    pub k: u8,
    /// How many clients there are, from 1 to 1,024.
    pub clients: u32,
    /// How many objects a client's cache holds, from 1 to 100,000.
    pub cache: u32,
    /// How many transactions a centre stamps at most, from 1 to 1,000,000.
    pub limit: u64,
    /// How many threads play a phase, from 1 to 16.
    pub threads: u32,
    /// How many rounds a worker makes in a phase, from 0 to 1,000.
    pub rounds: u32,
    /// The objects that taps show, at most 8, and each of a centre once.
    pub taps: Taps,
    pub sections: Sections,
}
