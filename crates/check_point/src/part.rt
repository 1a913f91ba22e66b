// What a point is taken apart into.

use list_core::List;
use tx_core::StateParts;
use vv_core::Vector;

/// A client with the greatest number of its transactions that were folded.
#[derive(Clone, Copy)]
pub struct Folded {
    pub client: u32,
    pub number: u64,
}

/// Clients with a number each, in their order, seen as their list.
pub type Numbers = List<Folded>;

/// What a point keeps: its vector, how many transactions were folded, the greatest number of each client
/// that has one, and the state of each object that has an operation among them.
#[derive(Drop)]
pub struct PointParts {
    pub vector: Vector,
    pub folded: u64,
    pub numbers: Numbers,
    pub states: StateParts,
}
