// Cells parted into those that are live and those that are owed their adds.
ghost use Rattle.std.specs.Prelude.{◌≡◌, []};

use crate::place::{Cell, Place};
use std::alloc::{AllocError, Global};
use std::collections::BTreeMap;

// Cells by their places: `live` has those with a tally of 1 or more, which keep something, and `owed` those
// with a tally below 0, of identifiers that were lowered before their adds came, which keep nothing. Cells
// of 0 are in neither, but that some stand in `owed` while an operation is made.
#[derive(Drop)]
pub(crate) struct Parted<P: Copy> {
    pub(crate) live: BTreeMap<Place, Cell<P>>,
    pub(crate) owed: BTreeMap<Place, Cell<P>>,
}

impl<P: Copy> Parted<P> {
    // No cell.
    pub(crate) fn new(alloc: Global) -> Parted<P>
        ensures live { result.live.entries ≡ [] }
        ensures owed { result.owed.entries ≡ [] }
    {
        Parted {
            live: BTreeMap::new(alloc),
            owed: BTreeMap::new(alloc),
        }
    }
}

impl<P: Copy> Clone for Parted<P> {
    ghost is_clone = { λ old new. (new.live.entries ≡ old.live.entries) × (new.owed.entries ≡ old.owed.entries) };

    fn clone(&self) -> Result<Parted<P>, AllocError> {
        Ok(Parted {
            live: self.live.clone()?,
            owed: self.owed.clone()?,
        })
    }
}
