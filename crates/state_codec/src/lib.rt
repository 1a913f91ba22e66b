//! The states of objects, taken apart into plain data, as bytes.
#![tactic(auto)]

// What reading found, or else the caller stops too. It stands for `?`, of which nothing is proved where a
// name or a list comes beside a slice.
macro_rules! found {
    ($reading:expr) => {
        match $reading {
            Ok(found) => found,
            Err(stop) => return Err(stop),
        }
    };
}

mod fields;
mod fits;
mod laws;
mod numbers;
mod plain;
mod reading;
mod state;
mod stop;
mod tallies;
mod writing;

pub use laws::law_one_spelling;
pub use numbers::{u8_at, u32_at, u64_at};
pub use plain::{NotMade, law_plain};
pub use reading::{part_at, state_at};
pub use state::{PlainPart, PlainState};
pub use stop::Stop;
pub use writing::{NotPut, put_part, put_state, put_u32, put_u64};
