// Why the work was not done.
use ids_core::{BadName, NoMemory};
use journal_disk::DiskFault;
use journal_file::{JournalFault, OpenFault};
use journal_pair::PairFault;
use pair_centre::CentreFault;
use std::alloc::{AllocError, AllocFailed};
use std::io;

#[derive(Clone, Copy)]
pub enum Fault {
    Differs,
    NotOpened,
    Disk,
    NoMemory,
}

impl Fault {
    // The status by which the program tells it.
    pub fn status(self) -> u8 {
        match self {
            Fault::Differs => 3,
            Fault::NotOpened => 4,
            Fault::Disk => 5,
            Fault::NoMemory => 6,
        }
    }
}

impl From<AllocError> for Fault {
    fn from(_: AllocError) -> Self {
        Fault::NoMemory
    }
}

impl<T: Drop> From<AllocFailed<T>> for Fault {
    fn from(_: AllocFailed<T>) -> Self {
        Fault::NoMemory
    }
}

impl From<NoMemory> for Fault {
    fn from(_: NoMemory) -> Self {
        Fault::NoMemory
    }
}

impl From<BadName> for Fault {
    fn from(_: BadName) -> Self {
        Fault::Differs
    }
}

// A call that writes to standard output failed.
impl From<io::Error> for Fault {
    fn from(_: io::Error) -> Self {
        Fault::Disk
    }
}

impl From<DiskFault> for Fault {
    fn from(fault: DiskFault) -> Self {
        match fault {
            DiskFault::NoMemory => Fault::NoMemory,
            DiskFault::Failed => Fault::Disk,
        }
    }
}

impl From<JournalFault> for Fault {
    fn from(fault: JournalFault) -> Self {
        match fault {
            JournalFault::NoMemory => Fault::NoMemory,
            JournalFault::Disk | JournalFault::Shut => Fault::Disk,
        }
    }
}

impl From<OpenFault> for Fault {
    fn from(fault: OpenFault) -> Self {
        match fault {
            OpenFault::Bad(_) => Fault::Differs,
            OpenFault::NoMemory => Fault::NoMemory,
            OpenFault::Disk => Fault::Disk,
        }
    }
}

impl From<CentreFault> for Fault {
    fn from(fault: CentreFault) -> Self {
        match fault {
            CentreFault::Pair(PairFault::NoMemory) => Fault::NoMemory,
            CentreFault::Pair(PairFault::File(_, fault)) => fault.into(),
            _ => Fault::Differs,
        }
    }
}
