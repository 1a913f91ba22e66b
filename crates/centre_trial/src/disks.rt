// The disks over a real file and in memory that journals stand on.
use crate::asking::with_journal;
use crate::fault::Fault;
use file_disk::FileDisk;
use journal_disk::{Disk, MemoryDisk, shorten, store};
use std::alloc::Global;
use std::fs;
use std::fs::Files;

// Makes a file with an empty journal.
pub fn make_file<R: Files<File = fs::File> + AllocGlobal>(rt: &R, path: &str) -> Result<(), Fault> {
    match FileDisk::create(rt, rt.alloc(), path) {
        Ok(disk) => match with_journal(rt.alloc(), disk) {
            Ok(_) => Ok(()),
            Err(fault) => Err(fault),
        },
        Err(_) => Err(Fault::NotOpened),
    }
}

// The disk over a new file.
pub fn new_disk<R: Files<File = fs::File> + AllocGlobal>(
    rt: &R,
    path: &str,
) -> Result<FileDisk, Fault> {
    match FileDisk::create(rt, rt.alloc(), path) {
        Ok(disk) => Ok(disk),
        Err(_) => Err(Fault::NotOpened),
    }
}

// The disk over the file.
pub fn file_disk<R: Files<File = fs::File> + AllocGlobal>(
    rt: &R,
    path: &str,
) -> Result<FileDisk, Fault> {
    match FileDisk::open(rt, rt.alloc(), path) {
        Ok(disk) => Ok(disk),
        Err(_) => Err(Fault::NotOpened),
    }
}

// Puts these bytes in the place of the file's.
pub fn fill_file<R: Files<File = fs::File> + AllocGlobal>(
    rt: &R,
    path: &str,
    bytes: &[u8],
) -> Result<(), Fault> {
    match file_disk(rt, path) {
        Ok(disk) => {
            let mut disk = disk;
            fill(&mut disk, bytes)
        }
        Err(fault) => Err(fault),
    }
}

// A disk in memory with these bytes.
pub fn memory_disk(alloc: Global, bytes: &[u8]) -> Result<MemoryDisk, Fault> {
    let mut disk = MemoryDisk::new(alloc, Vec::new(alloc));
    match fill(&mut disk, bytes) {
        Ok(()) => Ok(disk),
        Err(fault) => Err(fault),
    }
}

// Puts these bytes in the place of those of a disk.
fn fill<D: Disk>(disk: &mut D, bytes: &[u8]) -> Result<(), Fault> {
    shorten(disk, 0)?;
    store(disk, 0, bytes)?;
    Ok(())
}
