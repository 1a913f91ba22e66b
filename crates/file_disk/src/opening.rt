// Files by their names.
ghost use Rattle.std.specs.Prelude.{◌≡◌, [], ◌∷◌, List, ℕ, IfOk};
ghost use Rattle.journal_disk.specs.declared.disk.Step.TheVariants.{Settled};
ghost use Rattle.journal_disk.specs.Disk.{moment};
ghost use Rattle.file_disk.specs.File.{history_of};

use crate::FileDisk;
use std::alloc::Global;
use std::fs::{Files, OpenOptions};
use std::{fs, io};

impl FileDisk {
    /// The disk over a new file. Where the name is taken the error is `AlreadyExists`.
    pub fn create<R: Files<File = fs::File>>(
        files: &R,
        alloc: Global,
        path: &str,
    ) -> io::Result<FileDisk>
        ensures { IfOk result (λ disk. (bytes : List ℕ) × (history_of disk ≡ moment Settled bytes ∷ [])) }
    {
        let file = OpenOptions::new()
            .read(true)
            .write(true)
            .create_new(true)
            .open(files, path)?;
        locked(files, alloc, path, file)
    }

    /// The disk over a file that is there. Its history begins with what the file holds. Where another disk has the file,
    /// of this program or another one, the error is `WouldBlock`.
    pub fn open<R: Files<File = fs::File>>(
        files: &R,
        alloc: Global,
        path: &str,
    ) -> io::Result<FileDisk>
        ensures { IfOk result (λ disk. (bytes : List ℕ) × (history_of disk ≡ moment Settled bytes ∷ [])) }
    {
        let file = OpenOptions::new().read(true).write(true).open(files, path)?;
        locked(files, alloc, path, file)
    }
}

// The disk over an open file, under a lock that goes with it. The file's name is put on the disk too.
fn locked<R: Files<File = fs::File>>(
    files: &R,
    alloc: Global,
    path: &str,
    file: fs::File,
) -> io::Result<FileDisk>
    ensures { IfOk result (λ disk. (bytes : List ℕ) × (history_of disk ≡ moment Settled bytes ∷ [])) }
{
    file.try_lock()?;
    let folder = OpenOptions::new().read(true).open(files, folder_of(path))?;
    folder.sync_all()?;
    FileDisk::settled(alloc, file)
}

// The folder in which a path names a file.
fn folder_of(path: &str) -> &str {
    match path.rsplit_once('/') {
        Some(("", _)) => "/",
        Some((folder, _)) => folder,
        None => ".",
    }
}
