// The files of a folder.
use crate::fault::Fault;
use file_disk::FileDisk;
use std::alloc::Global;
use std::fs::Files;
use std::{fs, io};

/// How the paths of the two files of a centre begin.
pub(crate) fn files_of(alloc: Global, folder: &str, centre: u8) -> Result<String, Fault> {
    Ok(format!(in alloc; "{folder}/centre-{centre}")?)
}

// The path of one of the two files of a centre, `a` or `b`.
fn path_of(alloc: Global, folder: &str, centre: u8, letter: char) -> Result<String, Fault> {
    Ok(format!(in alloc; "{folder}/centre-{centre}.{letter}.journal")?)
}

/// How files of a centre are found.
#[derive(Clone, Copy)]
pub(crate) enum Wanted {
    /// They are made.
    New,
    /// They are there.
    Old,
}

// The disk over one of the two files of a centre.
fn disk_of<R: Files<File = fs::File> + AllocGlobal>(
    rt: &R,
    folder: &str,
    centre: u8,
    letter: char,
    wanted: Wanted,
) -> Result<FileDisk, Fault> {
    let path = path_of(rt.alloc(), folder, centre, letter)?;
    let found = match wanted {
        Wanted::New => FileDisk::create(rt, rt.alloc(), path.as_str()),
        Wanted::Old => FileDisk::open(rt, rt.alloc(), path.as_str()),
    };
    match found {
        Ok(disk) => Ok(disk),
        Err(error) => Err(Fault::File(path, error)),
    }
}

/// The disks over the two files of a centre.
pub(crate) fn disks_of<R: Files<File = fs::File> + AllocGlobal>(
    rt: &R,
    folder: &str,
    centre: u8,
    wanted: Wanted,
) -> Result<(FileDisk, FileDisk), Fault> {
    let first = disk_of(rt, folder, centre, 'a', wanted)?;
    let second = disk_of(rt, folder, centre, 'b', wanted)?;
    Ok((first, second))
}

/// The path of the file with the numbers of the centres.
pub(crate) fn settings_path(alloc: Global, folder: &str) -> Result<String, Fault> {
    Ok(format!(in alloc; "{folder}/settings")?)
}

/// Whether a folder has a file with the numbers of centres, and so journals.
pub fn is_taken<R: Files<File = fs::File> + AllocGlobal>(
    rt: &R,
    folder: &str,
) -> Result<bool, Fault> {
    let path = settings_path(rt.alloc(), folder)?;
    Ok(fs::metadata(rt, path.as_str()).is_ok())
}

/// Makes the folder where it is not there.
pub(crate) fn make_folder<R: Files<File = fs::File> + AllocGlobal>(
    rt: &R,
    folder: &str,
) -> Result<(), Fault> {
    match fs::create_dir(rt, folder) {
        Ok(()) => Ok(()),
        Err(error) => {
            if error.kind() == io::ErrorKind::AlreadyExists {
                return Ok(());
            }
            Err(Fault::File(String::from_str(rt.alloc(), folder)?, error))
        }
    }
}
