/// The name of a transaction at the centre that took it (Zawirski and others, Middleware 2015).
#[derive(Clone, Copy, PartialEq, Eq)]
pub struct Stamp {
    /// The centre, counted from 1.
    pub centre: u8,
    /// The place among the transactions that the centre took, counted from 1.
    pub seq: u32,
}

/// An entry by which one vector falls short of another.
#[derive(Clone, Copy)]
pub struct Lack {
    /// The centre, counted from 1.
    pub centre: u8,
    /// The entry that is needed.
    pub need: u64,
    /// The entry that is there, which is less.
    pub have: u64,
}
