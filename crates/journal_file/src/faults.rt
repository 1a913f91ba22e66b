// Why a journal was not written or opened.
ghost use Rattle.std.specs.Prelude.{◌≡◌};
ghost use Rattle.journal_file.specs.declared.faults.JournalFault.TheVariants.{NoMemory};
ghost use Rattle.journal_file.specs.declared.faults.OpenFault.TheVariants.{NoMemory as OpenNoMemory};
ghost use Rattle.journal_file.specs.Faults.{append_fault, open_fault};

use journal_disk::DiskFault;
use std::alloc::{AllocError, AllocFailed};

/// Why items were not appended.
#[derive(Clone, Copy, Debug, PartialEq, Eq)]
pub enum JournalFault {
    Disk,
    NoMemory,
    Shut,
}

impl From<AllocError> for JournalFault {
    ghost from_gives = { λ _ e. e ≡ NoMemory };

    fn from(_: AllocError) -> Self {
        JournalFault::NoMemory
    }
}

impl From<DiskFault> for JournalFault {
    ghost from_gives = { λ fault e. e ≡ append_fault fault };

    fn from(fault: DiskFault) -> Self {
        match fault {
            DiskFault::Failed => JournalFault::Disk,
            DiskFault::NoMemory => JournalFault::NoMemory,
        }
    }
}

/// Why a file was not opened; a bad gate by its place.
#[derive(Clone, Copy, Debug, PartialEq, Eq)]
pub enum OpenFault {
    Disk,
    NoMemory,
    Bad(u64),
}

impl From<AllocError> for OpenFault {
    ghost from_gives = { λ _ e. e ≡ OpenNoMemory };

    fn from(_: AllocError) -> Self {
        OpenFault::NoMemory
    }
}

impl<T: Drop> From<AllocFailed<T>> for OpenFault {
    ghost from_gives = { λ _ e. e ≡ OpenNoMemory };

    fn from(_: AllocFailed<T>) -> Self {
        OpenFault::NoMemory
    }
}

impl From<DiskFault> for OpenFault {
    ghost from_gives = { λ fault e. e ≡ open_fault fault };

    fn from(fault: DiskFault) -> Self {
        match fault {
            DiskFault::Failed => OpenFault::Disk,
            DiskFault::NoMemory => OpenFault::NoMemory,
        }
    }
}
