// What a bundle is made of.

use list_core::List;
use tx_core::{RestParts, StateParts};
use vv_core::{Stamp, Vector};

/// What a donor knows of a client's transactions.
#[derive(Clone, Copy)]
pub struct ClientPart {
    pub client: u32,
    /// The greatest number of those that it has.
    pub number: u64,
    /// The stamp with which it first had that one.
    pub stamp: Stamp,
    /// The greatest number of those that it has folded, 0 for none.
    pub folded: u64,
}

/// What a donor knows of its clients, in their order.
pub type ClientParts = List<ClientPart>;

/// A vector for each centre, in their order.
pub type Rows = List<Vector>;

/// A snapshot of what a centre keeps, as it gives it to one that joins.
#[derive(Drop)]
pub struct BundleParts {
    /// The centre that gives, counted from 1.
    pub donor: u8,
    /// Through how many bundles the donor had what it gives: 0 where it adopted none.
    pub depth: u8,
    /// What the donor has.
    pub vector: Vector,
    /// What each centre has told that it has, as far as the donor knows.
    pub rows: Rows,
    /// The vector within which all is folded.
    pub base: Vector,
    /// The vector up to which the donor may fold.
    pub mark: Vector,
    /// How many transactions are folded.
    pub folded: u64,
    /// The greatest rank of all that the donor has.
    pub top: u64,
    pub clients: ClientParts,
    /// The states at the base, ascending by object.
    pub states: StateParts,
    /// The transactions that are not folded, in the donor's order.
    pub rest: RestParts,
}
