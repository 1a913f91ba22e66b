// Why two files were not opened.
ghost use Rattle.std.specs.Prelude.{◌≡◌};
ghost use Rattle.journal_pair.specs.declared.faults.PairFault.TheVariants.{NoMemory};

use journal_file::OpenFault;
use std::alloc::{AllocError, AllocFailed};

/// One of two files, in the order in which they were given.
#[derive(Clone, Copy, Debug, PartialEq, Eq)]
pub enum Side {
    First,
    Second,
}

/// Why two files were not opened: one is no journal, or its entries are no generation; neither has a generation, or both
/// have that of one number; or memory was not found.
#[derive(Clone, Copy, Debug, PartialEq, Eq)]
pub enum PairFault {
    File(Side, OpenFault),
    Mixed(Side),
    Empty,
    Same,
    NoMemory,
}

impl From<AllocError> for PairFault {
    ghost from_gives = { λ _ e. e ≡ NoMemory };

    fn from(_: AllocError) -> Self {
        PairFault::NoMemory
    }
}

impl<T: Drop> From<AllocFailed<T>> for PairFault {
    ghost from_gives = { λ _ e. e ≡ NoMemory };

    fn from(_: AllocFailed<T>) -> Self {
        PairFault::NoMemory
    }
}
