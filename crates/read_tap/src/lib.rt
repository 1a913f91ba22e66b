//! Taps: what chosen objects are at a centre's base, shown to readers that take no lock.
#![tactic(auto)]

mod count;
mod feeder;
mod limits;
mod reader;
mod show;
mod shows;
mod tap;

pub use feeder::TapFeeder;
pub use limits::{MOST_READERS, MOST_SHOWN};
pub use reader::TapReader;
pub use shows::Shows;
pub use tap::{Tap, UnclosedTap};
