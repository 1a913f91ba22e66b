// Identifiers of transactions and of their operations, and marks.
ghost use Rattle.std.specs.Prelude.{◌≡◌};
ghost use Rattle.std.specs.Cmp.{IsTotalOrder};
ghost use Rattle.std.specs.FinMap.{IsAntisymmetric};
ghost use Rattle.ids_core.specs.Orders.{id_cmp, mark_cmp};

use std::cmp::Ordering;

/// The number that a client gives its transaction (Middleware 2015): the client, and which of
/// that client's commits it is, counted from 1.
#[derive(Clone, Copy, PartialEq, Eq, PartialOrd, Ord)]
pub struct Dot {
    pub client: u32,
    pub number: u64,
}

/// The identifier of an operation: the dot of its transaction, and its place among the updates
/// there, counted from 0.
#[derive(Clone, Copy, PartialEq, Eq, PartialOrd, Ord)]
pub struct OpId {
    pub dot: Dot,
    pub place: u16,
}

/// The mark of an operation: the rank of its transaction, and its identifier. Marks are ordered
/// by rank, then client, then number, then place.
#[derive(Clone, Copy, PartialEq, Eq, PartialOrd, Ord)]
pub struct Mark {
    pub rank: u64,
    pub id: OpId,
}

/// The order of identifiers is total, and what is equal in it is the same.
pub fn law_id_order()
    ensures total { IsTotalOrder id_cmp }
    ensures same { IsAntisymmetric id_cmp }
{}

/// The order of marks is total, and what is equal in it is the same.
pub fn law_mark_order()
    ensures total { IsTotalOrder mark_cmp }
    ensures same { IsAntisymmetric mark_cmp }
{}

/// The order of two identifiers.
pub fn id_order(a: &OpId, b: &OpId) -> Ordering
    ensures { result ≡ id_cmp a.now b.now }
{
    a.cmp(b)
}

/// The order of two marks.
pub fn mark_order(a: &Mark, b: &Mark) -> Ordering
    ensures { result ≡ mark_cmp a.now b.now }
{
    a.cmp(b)
}
