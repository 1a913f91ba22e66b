// The limits of the system, each stated once.

/// How many clients there are at most. They are counted from 1.
pub const MOST_CLIENTS: u32 = 1_024;

/// How many centres there are at most. They are counted from 1.
pub const MOST_CENTRES: u8 = 8;

/// How many updates a transaction has at most.
pub const MOST_UPDATES: u64 = 256;

/// How many identifiers an operation is over at most.
pub const MOST_TAGS: u64 = 4_096;

/// How many commits of a client are pending at most.
pub const MOST_PENDING: u64 = 1_024;

/// How many records a centre has at most, and so the greatest number of a stamp.
pub const MOST_RECORDS: u32 = 1_000_000;

/// How far a delta is from 0 at most.
pub const MOST_DELTA: u64 = 1_000_000_000_000;

/// The greatest rank, and the greatest number of a commit.
pub const MOST_NUMBER: u64 = 1 << 62;

/// How many objects a client caches at most.
pub const MOST_CACHED: u32 = 100_000;
