// The numbers that the centres of a folder share.
ghost use Rattle.std.specs.Prelude.{◌≤◌};
ghost use Rattle.ids_core.specs.declared.limits.TheConstants.{MOST_CENTRES, MOST_RECORDS};

use crate::fault::Fault;
use crate::folder::settings_path;
use ids_core::{MOST_CENTRES, MOST_RECORDS};
use std::fs::{Files, OpenOptions};
use std::io::Write;
use std::{fs, io};

/// How many centres there are, how many make stable, and how many transactions each may stamp.
#[derive(Clone, Copy)]
pub(crate) struct Numbers {
    pub n: u8,
    pub k: u8,
    pub limit: u64,
    ghost width: { n ≤ MOST_CENTRES },
    ghost known: { (1 ≤ k) × (k ≤ n) },
    ghost most: { (1 ≤ limit) × (limit ≤ MOST_RECORDS) },
}

impl Numbers {
    /// Numbers, where they are in range.
    pub fn new(n: u8, k: u8, limit: u64) -> Option<Numbers> {
        if n > MOST_CENTRES || k < 1 || k > n || limit < 1 || limit > u64::from(MOST_RECORDS) {
            return None;
        }
        Some(Numbers { n, k, limit })
    }

    // The numbers that a line tells.
    fn of_line(line: &str) -> Option<Numbers> {
        let rest = line.strip_suffix("\n")?.strip_prefix("centres ")?;
        let (n, rest) = rest.split_once(" k ")?;
        let (k, limit) = rest.split_once(" limit ")?;
        Numbers::new(n.parse().ok()?, k.parse().ok()?, limit.parse().ok()?)
    }
}

// Writes a line to a new file, and has it put on the disk.
fn write_line<R: Files<File = fs::File>>(files: &R, path: &str, line: &str) -> io::Result<()> {
    let mut file = OpenOptions::new()
        .write(true)
        .create_new(true)
        .open(files, path)?;
    file.write_all(line.as_bytes())?;
    file.sync_all()
}

/// Writes the numbers of a folder to its file, which has to be new.
pub(crate) fn write_numbers<R: Files<File = fs::File> + AllocGlobal>(
    rt: &R,
    folder: &str,
    numbers: Numbers,
) -> Result<(), Fault> {
    let path = settings_path(rt.alloc(), folder)?;
    let Numbers { n, k, limit } = numbers;
    let line = format!(in rt.alloc(); "centres {n} k {k} limit {limit}\n")?;
    match write_line(rt, path.as_str(), line.as_str()) {
        Ok(()) => Ok(()),
        Err(error) => Err(Fault::File(path, error)),
    }
}

/// The numbers of a folder, from its file.
pub(crate) fn read_numbers<R: Files<File = fs::File> + AllocGlobal>(
    rt: &R,
    folder: &str,
) -> Result<Numbers, Fault> {
    let path = settings_path(rt.alloc(), folder)?;
    match fs::read_to_string(rt, path.as_str()) {
        Ok(line) => match Numbers::of_line(line.as_str()) {
            Some(numbers) => Ok(numbers),
            None => Err(Fault::Settings(path)),
        },
        Err(error) => match error.kind() {
            io::ErrorKind::OutOfMemory => Err(Fault::NoMemory),
            io::ErrorKind::InvalidData => Err(Fault::Settings(path)),
            _ => Err(Fault::File(path, error)),
        },
    }
}
