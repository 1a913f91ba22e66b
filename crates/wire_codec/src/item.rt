// What a frame holds, and what bytes are.

use tx_core::Record;
use vv_core::Vector;

/// The first byte of each frame.
pub const SIGN: u8 = 0x53;

/// The least version that is read. It says no hops.
pub const OLDEST_VERSION: u8 = 1;

/// The version that is written, and the greatest that is read.
pub const VERSION: u8 = 2;

/// What a frame holds.
#[derive(Drop)]
pub enum Item {
    /// A record, with the number of deliveries that brought it to the centre that hands it on.
    Rec { item: Record, hops: u8 },
    /// The vector of a centre, as it reports it.
    Rep { centre: u8, vector: Vector },
}

/// What bytes are.
#[derive(Drop)]
pub enum Decoded {
    /// They begin with the frame of this item, which has so many bytes.
    Whole { item: Item, used: u64 },
    /// They end before the frame does, and each whole field is allowed.
    Short,
    /// The first field that is not allowed begins at this place, counted from 0.
    Bad { place: u64 },
}
