// A guard taken apart.

use vv_core::Stamp;

/// What is noted of a client: the greatest number, which is 1 or more, and the stamp that was first noted
/// with it.
#[derive(Clone, Copy)]
pub struct Noted {
    /// The client, of 1 to `MOST_CLIENTS`.
    pub client: u32,
    pub number: u64,
    pub stamp: Stamp,
}
