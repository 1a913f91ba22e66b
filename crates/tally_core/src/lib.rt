//! Tallies of adds and removes: what sets and maps share, stated once. With the law that live
//! adds by tallies are the adds that no remove sees.
#![tactic(auto)]

mod changes;
mod listing;
mod live;
mod parted;
mod place;
mod room;
mod sees;
mod shared;
mod tallies;
mod turn;

pub use changes::{law_live, law_order, law_tallies};
pub use listing::{are_stored, ascend};
pub use place::{Cell, Place};
pub use sees::law_sees;
pub use tallies::Tallies;
