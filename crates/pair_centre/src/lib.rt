//! A data centre with a journal that does not grow for ever: a checkpoint of what it keeps stands for the asks before it.
#![tactic(auto)]

mod asking;
mod compacting;
mod faults;
mod item;
mod laws;
mod opening;
mod pair_centre;
mod replaying;

pub use compacting::Compacted;
pub use faults::{CentreFault, Unopened};
pub use item::PairItem;
pub use laws::law_between_calls;
pub use pair_centre::PairCentre;
