// What the transactions and the states that a centre keeps are taken apart into.

use crate::state::State;
use crate::tx::Tx;
use ids_core::ObjectId;
use list_core::List;
use vv_core::Stamp;

/// Stamps in the order in which they came, seen as their list.
pub type Stamps = List<Stamp>;

/// A transaction that is not folded yet, with all stamps that it has.
#[derive(Drop)]
pub struct RestPart {
    pub tx: Tx,
    pub stamps: Stamps,
}

/// Transactions with their stamps, in their order.
pub type RestParts = List<RestPart>;

/// An object with its state.
#[derive(Drop)]
pub struct StatePart {
    pub object: ObjectId,
    pub state: State,
}

/// Objects with a state each, in their order.
pub type StateParts = List<StatePart>;
