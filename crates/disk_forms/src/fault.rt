// Why journals were not made or not opened.
use crate::folder::settings_path;
use journal_file::OpenFault;
use journal_pair::{PairFault, Side};
use pair_centre::CentreFault;
use std::alloc::{AllocError, AllocFailed, Global};
use std::{fmt, io};

/// Why journals were not made or not opened.
#[derive(Drop)]
pub enum Fault {
    /// The file or the folder with this path was not made, opened, read or written.
    File(String, io::Error),
    /// The file with this path is there, and would have to be new.
    Taken(String),
    /// A call of one of the two files of a centre failed, whose paths begin so.
    Disk(String),
    /// The file with this path does not have the numbers of the centres.
    Settings(String),
    /// The two files of a centre, whose paths begin so, are no journal of it.
    Bad(String, CentreFault),
    /// Standard output took no line.
    Output,
    /// Memory ran out.
    NoMemory,
}

impl Fault {
    /// The status by which the program tells it.
    pub fn status(&self) -> u8 {
        match self {
            Fault::Output => 5,
            Fault::NoMemory => 6,
            Fault::Settings(_) | Fault::Bad(_, _) => 7,
            Fault::File(_, _) | Fault::Taken(_) | Fault::Disk(_) => 8,
        }
    }

    /// That a folder has journals already.
    pub fn taken(alloc: Global, folder: &str) -> Result<Fault, Fault> {
        Ok(Fault::Taken(settings_path(alloc, folder)?))
    }

    /// Why the two files of a centre, whose paths begin so, were not opened.
    pub(crate) fn of_centre(files: String, why: CentreFault) -> Fault {
        match why {
            CentreFault::Pair(PairFault::NoMemory)
            | CentreFault::Pair(PairFault::File(_, OpenFault::NoMemory)) => Fault::NoMemory,
            CentreFault::Pair(PairFault::File(_, OpenFault::Disk)) => Fault::Disk(files),
            _ => Fault::Bad(files, why),
        }
    }
}

impl From<AllocError> for Fault {
    fn from(_: AllocError) -> Self {
        Fault::NoMemory
    }
}

impl<T: Drop> From<AllocFailed<T>> for Fault {
    fn from(_: AllocFailed<T>) -> Self {
        Fault::NoMemory
    }
}

// The letter of one of two files.
fn letter(side: Side) -> char {
    match side {
        Side::First => 'a',
        Side::Second => 'b',
    }
}

// Says which of two files is bad, where, and why.
fn say_bad<W: fmt::Write>(f: &mut fmt::Formatter<W>, files: &str, why: CentreFault) -> fmt::Result {
    match why {
        CentreFault::Pair(PairFault::File(side, OpenFault::Bad(place))) => {
            let letter = letter(side);
            write!(
                f,
                "{files}.{letter}.journal: no journal goes on at byte {place}"
            )
        }
        CentreFault::Pair(PairFault::Mixed(side)) => {
            let letter = letter(side);
            write!(
                f,
                "{files}.{letter}.journal: its entries are not those of one generation"
            )
        }
        CentreFault::Pair(PairFault::Empty) => {
            write!(
                f,
                "{files}.a.journal, {files}.b.journal: neither has a generation"
            )
        }
        CentreFault::Pair(PairFault::Same) => {
            write!(
                f,
                "{files}.a.journal, {files}.b.journal: both have the same generation"
            )
        }
        CentreFault::BadCheckpoint => {
            write!(
                f,
                "{files}.a.journal, {files}.b.journal: the checkpoint is not of this centre"
            )
        }
        CentreFault::BadAsk(place) => {
            write!(
                f,
                "{files}.a.journal, {files}.b.journal: ask {place} behind the checkpoint, counted from 0, is not of this centre"
            )
        }
        _ => write!(f, "{files}: no journal"),
    }
}

impl fmt::Display for Fault {
    fn fmt<W: fmt::Write>(&self, f: &mut fmt::Formatter<W>) -> fmt::Result {
        match self {
            Fault::File(path, error) => write!(f, "{path}: {error}"),
            Fault::Taken(path) => write!(
                f,
                "{path}: it is there, and the journals of a folder are new"
            ),
            Fault::Disk(files) => {
                write!(
                    f,
                    "{files}.a.journal, {files}.b.journal: a call of a file failed"
                )
            }
            Fault::Settings(path) => { write!(f, "{path}: not a line 'centres N k K limit L'") }
            Fault::Bad(files, why) => say_bad(f, files.as_str(), *why),
            Fault::Output => write!(f, "standard output was not written: a write failed"),
            Fault::NoMemory => write!(f, "memory ran out"),
        }
    }
}
