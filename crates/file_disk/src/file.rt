// Each method makes one call of the system, and then notes it with its answer.
ghost use Rattle.std.specs.Prelude.{◌≡◌, ◌==◌, ◌≤◌, [], ◌∷◌, List, ℕ, is_ok, IfOk};
ghost use Rattle.journal_disk.specs.declared.disk.Step.TheVariants.{Settled};
ghost use Rattle.journal_disk.specs.Disk.{moment, HasRisen, HasCause};
ghost use Rattle.file_disk.specs.Events.{history, is_honest};
ghost use Rattle.file_disk.specs.File.{history_of};

use crate::record::Record;
use journal_disk::{Disk, DiskFault};
use std::alloc::Global;
use std::os::unix::fs::FileExt;
use std::{fs, io};

// The calls that are noted, by their numbers.
const FOUND: u64 = 0;

const WROTE: u64 = 1;

const CUT: u64 = 2;

const SYNCED: u64 = 3;

const READ: u64 = 4;

/// The disk over an open file of the operating system. Contracts see the calls that were made on it, with their answers.
/// No proof shows what follows, and theorems about it rest on that: each method below makes the call that it notes,
/// nothing else writes to the file, and after a crash the file is there under its name and holds what `MayLeave` allows.
/// That a read gives what stands there is `is_honest`, which clauses have as a premise.
#[derive(Drop)]
pub struct FileDisk {
    file: fs::File,
    log: Record,
    faults: u64,
}

// 1 for a call that went well, and 0 for one that failed.
fn flag(ok: bool) -> u64
    ensures { (result == 1) ≡ ok }
{
    if ok { 1 } else { 0 }
}

impl Disk for FileDisk {
    ghost stands = { λ f h. h ≡ history f.log.events };

    ghost is_honest = { λ f. is_honest f.log.events };

    ghost faults = { λ f. f.faults };

    ghost shortages = { λ _. 0 };

    fn read_at(&mut self, at: u64, into: &mut [u8]) -> Result<usize, DiskFault> {
        match self.file.read_at(into, at) {
            Ok(count) => {
                self.log
                    .note(&[READ, at, into.len() as u64, 1], &into[..count]);
                Ok(count)
            }
            Err(_) => {
                self.log.note(&[READ, at, into.len() as u64, 0], &[]);
                Err(self.failed())
            }
        }
    }

    fn write_at(&mut self, at: u64, piece: &[u8]) -> Result<(), DiskFault> {
        let ok = self.file.write_all_at(piece, at).is_ok();
        self.log.note(&[WROTE, at, 0, flag(ok)], piece);
        self.answer(ok)
    }

    fn cut(&mut self, to: u64) -> Result<(), DiskFault> {
        let ok = self.file.set_len(to).is_ok();
        self.log.note(&[CUT, to, 0, flag(ok)], &[]);
        self.answer(ok)
    }

    fn sync(&mut self) -> Result<(), DiskFault> {
        let ok = self.file.sync_all().is_ok();
        self.log.note(&[SYNCED, 0, 0, flag(ok)], &[]);
        self.answer(ok)
    }
}

impl FileDisk {
    // Counts a fault.
    fn failed(&mut self) -> DiskFault
        ensures result { result ≡ DiskFault.Failed }
        ensures log { self.new.log.events ≡ self.old.log.events }
        ensures risen { HasRisen self.old.faults self.new.faults }
        ensures stays { self.old.faults ≤ self.new.faults }
    {
        self.faults = self.faults.saturating_add(1);
        DiskFault::Failed
    }

    // The answer of a call that went well or failed.
    fn answer(&mut self, ok: bool) -> Result<(), DiskFault>
        ensures ok { is_ok result ≡ ok }
        ensures log { self.new.log.events ≡ self.old.log.events }
        ensures cause { HasCause self.old.faults self.new.faults 0 0 result }
    {
        if ok { Ok(()) } else { Err(self.failed()) }
    }

    // The disk over a file that was opened to read and write. The file is put on the disk and read first, so that its
    // history begins with what it holds.
    pub(crate) fn settled(alloc: Global, file: fs::File) -> io::Result<FileDisk>
        ensures { IfOk result (λ disk. (bytes : List ℕ) × (history_of disk ≡ moment Settled bytes ∷ [])) }
    {
        file.sync_all()?;
        let mut bytes = Vec::new(alloc);
        let mut piece = [0u8; 4096];
        for _turn in 0..u64::MAX {
            let count = file.read_at(&mut piece, bytes.len() as u64)?;
            if count == 0 {
                let mut log = Record::new();
                log.note(&[FOUND, 0, 0, 1], &bytes);
                return Ok(FileDisk {
                    file,
                    log,
                    faults: 0,
                });
            }
            bytes.extend_from_slice(&piece[..count])?;
        }
        Err(io::ErrorKind::OutOfMemory.into())
    }
}
