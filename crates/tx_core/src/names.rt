// Names, pairs of names and operations as lists that copies share.
ghost use Rattle.std.specs.Prelude.{◌≡◌, IfOk};

use crate::op::Op;
use ids_core::{Mark, Name, NoMemory};
use std::alloc::{AllocError, Global};
use std::marker::Model;
use std::sync::Arc;

/// Names, seen as their list.
pub type Names = SharedList<Name>;

/// Pairs of a key and a word, seen as their list.
pub type NamePairs = SharedList<(Name, Name)>;

/// Marked operations on an object in their order, seen as their list.
pub type Tail = SharedList<(Mark, Op)>;

/// Elements in their order, seen as their list. Nothing changes them, so copies share them.
#[derive(Drop)]
pub struct SharedList<T> {
    items: Arc<Vec<T>>,
}

impl<T> Model for SharedList<T> {
    ghost use Rattle.std.specs.Prelude.{List};
    ghost use Rattle.std.specs.Arc.{arc_value};

    ghost Value = { List T };

    ghost view = { λ l. (arc_value l.items).items };
}

impl<T: Drop> SharedList<T> {
    /// The elements of a vector.
    pub fn from_vec(alloc: Global, items: Vec<T>) -> Result<Self, NoMemory>
        ensures { IfOk result (λ list. list ≡ items.items) }
    {
        Ok(SharedList {
            items: Arc::new(alloc, items)?,
        })
    }

    /// The elements in their order.
    pub fn as_slice(&self) -> &[T]
        ensures { result.now ≡ self.now }
    {
        self.items.as_slice()
    }

    /// The same elements again. It takes no memory.
    pub fn copy(&self) -> Result<Self, AllocError>
        ensures { IfOk result (λ copy. copy ≡ self.now) }
    {
        Ok(SharedList {
            items: Arc::try_clone(&self.items)?,
        })
    }
}

impl<T: Drop> Clone for SharedList<T> {
    ghost is_clone = { λ old new. new ≡ old };

    fn clone(&self) -> Result<SharedList<T>, AllocError> {
        self.copy()
    }
}
