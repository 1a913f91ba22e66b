// Identifiers and marks for tests.
ghost use Rattle.std.specs.Prelude.{◌≡◌};

use ids_core::{Dot, Mark, OpId};

/// The identifier of the operation at a place of a client's transaction, which has that number.
pub fn id(client: u32, number: u64, place: u16) -> OpId
    ensures { result ≡ record { dot = record { client = client; number = number }; place = place } }
{
    let dot = Dot { client, number };
    OpId { dot, place }
}

/// The mark of an operation, by its rank and its identifier.
pub fn mark(rank: u64, id: OpId) -> Mark
    ensures { result ≡ record { rank = rank; id = id } }
{
    Mark { rank, id }
}
