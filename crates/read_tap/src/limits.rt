// The limits of a tap, each stated once.

/// How many objects a tap shows at most.
pub const MOST_SHOWN: u64 = 8;

/// How many readers a tap has at most.
pub const MOST_READERS: u32 = 16;
