//! The parts of a centre, taken apart into plain data, as bytes.
#![tactic(auto)]

// What reading found, or else the caller stops too. It stands for `?`, of which nothing is proved where a
// list or a vector comes beside a slice.
macro_rules! found {
    ($reading:expr) => {
        match $reading {
            Ok(found) => found,
            Err(stop) => return Err(stop),
        }
    };
}

// What was taken, or else there was no memory for it.
macro_rules! taken {
    ($taking:expr) => {
        match $taking {
            Ok(taken) => taken,
            Err(_) => return Err(NotPut::NoMemory),
        }
    };
}

mod centre;
mod clients;
mod frames;
mod item;
mod laws;
mod lists;
mod numbers;
mod parted;
mod parts_item;
mod plain;
mod point;
mod records;
mod spell;
mod states;
mod vectors;

pub use centre::{centre_at, put_centre};
pub use laws::law_one_spelling;
pub use parted::{law_of_kind, law_plain_parts};
pub use parts_item::PartsItem;
pub use plain::{PlainApplied, PlainCentre, PlainPoint, PlainStates};
