// Operations on objects.
ghost use Rattle.std.specs.Prelude.{◌≡◌, IfOk, length};
ghost use Rattle.tx_core.specs.Ops.{sort_of_op, over_of};

use ids_core::{Name, NoMemory, Sort, Tags};
use std::alloc::AllocError;

/// An operation on an object. `over` has the identifiers of the adds of the word, or of the puts of
/// the key, that were live where the operation was issued.
#[derive(Drop)]
pub enum Op {
    /// Adds a delta to a counter.
    Inc { delta: i64 },
    /// Writes a word to a register.
    Write { word: Name },
    /// Adds a word to a set.
    Add { word: Name, over: Tags },
    /// Removes a word from a set.
    Remove { word: Name, over: Tags },
    /// Puts a word at a key of a map.
    Put { key: Name, word: Name, over: Tags },
    /// Erases a key from a map.
    Erase { key: Name, over: Tags },
}

impl Clone for Op {
    ghost is_clone = { λ old new. new ≡ old };

    fn clone(&self) -> Result<Op, AllocError> {
        match self {
            Op::Inc { delta } => Ok(Op::Inc { delta: *delta }),
            Op::Write { word } => Ok(Op::Write { word: *word }),
            Op::Add { word, over } => Ok(Op::Add {
                word: *word,
                over: over.clone()?,
            }),
            Op::Remove { word, over } => Ok(Op::Remove {
                word: *word,
                over: over.clone()?,
            }),
            Op::Put { key, word, over } => Ok(Op::Put {
                key: *key,
                word: *word,
                over: over.clone()?,
            }),
            Op::Erase { key, over } => Ok(Op::Erase {
                key: *key,
                over: over.clone()?,
            }),
        }
    }
}

impl Op {
    /// The same operation again.
    pub fn copy(&self) -> Result<Op, NoMemory>
        ensures { IfOk result (λ copy. copy ≡ self.now) }
    {
        Ok(self.clone()?)
    }

    /// The kind of objects that it is on.
    pub fn sort(&self) -> Sort
        ensures { result ≡ sort_of_op self.now }
    {
        match self {
            Op::Inc { .. } => Sort::Counter,
            Op::Write { .. } => Sort::Register,
            Op::Add { .. } | Op::Remove { .. } => Sort::Set,
            Op::Put { .. } | Op::Erase { .. } => Sort::Map,
        }
    }

    /// How many identifiers it is over.
    pub fn tag_count(&self) -> usize
        ensures { result ≡ length (over_of self.now) }
    {
        match self {
            Op::Inc { .. } | Op::Write { .. } => 0,
            Op::Add { over, .. } | Op::Remove { over, .. } => over.as_slice().len(),
            Op::Put { over, .. } | Op::Erase { over, .. } => over.as_slice().len(),
        }
    }
}
