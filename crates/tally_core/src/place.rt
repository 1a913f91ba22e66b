// Where a tally stands, and what stands there.
ghost use Rattle.std.specs.Prelude.{◌≡◌};

use ids_core::{Name, OpId};
use std::alloc::AllocError;

/// The place of a tally: a name, and the identifier of an add under it. Places are ordered by name,
/// then identifier.
#[derive(Clone, Copy, PartialEq, Eq, PartialOrd, Ord)]
pub struct Place {
    pub name: Name,
    pub id: OpId,
}

/// A tally, and what its add keeps, which is there where the tally is 1 or more.
#[derive(Copy)]
pub struct Cell<P: Copy> {
    pub count: i64,
    pub kept: Option<P>,
}

impl<P: Copy> Clone for Cell<P> {
    ghost is_clone = { λ old new. new ≡ old };

    fn clone(&self) -> Result<Cell<P>, AllocError> {
        Ok(*self)
    }
}
