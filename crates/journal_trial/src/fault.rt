// Why the work was not done.
use journal_file::{JournalFault, OpenFault};
use std::alloc::{AllocError, AllocFailed};
use std::io;

#[derive(Clone, Copy)]
pub enum Fault {
    NoJournal,
    NotOpened,
    Disk,
    NoMemory,
    InUse,
}

impl Fault {
    // The status by which the program tells it.
    pub fn status(self) -> u8 {
        match self {
            Fault::NoJournal => 3,
            Fault::NotOpened => 4,
            Fault::Disk => 5,
            Fault::NoMemory => 6,
            Fault::InUse => 7,
        }
    }

    // Why a file was not opened.
    pub fn of_opening(error: io::Error) -> Fault {
        match error.kind() {
            io::ErrorKind::WouldBlock => Fault::InUse,
            io::ErrorKind::OutOfMemory => Fault::NoMemory,
            _ => Fault::NotOpened,
        }
    }
}

impl From<AllocError> for Fault {
    fn from(_: AllocError) -> Self {
        Fault::NoMemory
    }
}

impl<T: Drop> From<AllocFailed<T>> for Fault {
    fn from(_: AllocFailed<T>) -> Self {
        Fault::NoMemory
    }
}

// A call that writes to a file or to standard output failed.
impl From<io::Error> for Fault {
    fn from(_: io::Error) -> Self {
        Fault::Disk
    }
}

impl From<JournalFault> for Fault {
    fn from(fault: JournalFault) -> Self {
        match fault {
            JournalFault::NoMemory => Fault::NoMemory,
            JournalFault::Disk | JournalFault::Shut => Fault::Disk,
        }
    }
}

impl From<OpenFault> for Fault {
    fn from(fault: OpenFault) -> Self {
        match fault {
            OpenFault::Bad(_) => Fault::NoJournal,
            OpenFault::NoMemory => Fault::NoMemory,
            OpenFault::Disk => Fault::Disk,
        }
    }
}
