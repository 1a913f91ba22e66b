//! Records and reports as bytes: frames, for links and for a journal.
#![tactic(auto)]

// What reading found, or else the caller stops too. It stands for `?`, of which nothing is proved where a
// name, tags or a vector come beside a slice.
macro_rules! found {
    ($reading:expr) => {
        match $reading {
            Ok(found) => found,
            Err(stop) => return Err(stop),
        }
    };
}

mod decoding;
mod encoding;
mod fault;
mod fits;
mod item;
mod laws;
mod names;
mod numbers;
mod ops;
mod records;
mod tags;

pub use decoding::decode;
pub use encoding::{encode, encode_record};
pub use fits::{fits_record, fits_tx};
pub use item::{Decoded, Item, OLDEST_VERSION, SIGN, VERSION};
pub use laws::{law_fields, law_front, law_one_spelling};
