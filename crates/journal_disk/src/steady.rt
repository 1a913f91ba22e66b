// A disk in memory that never fails but for want of memory.
ghost use Rattle.std.specs.Prelude.{◌≡◌, ◌≤◌, [], length, OnOk, OnErr};
ghost use Rattle.journal_disk.specs.Disk.{seen, Holds, Torn};
ghost use Rattle.journal_disk.specs.Steady.{steady_bytes};

use crate::{Disk, DiskFault};
use std::alloc::{AllocError, Global};

/// A disk in memory. Its calls fail only where memory is not found, and then nothing has changed.
#[derive(Drop)]
pub struct SteadyDisk {
    bytes: Vec<u8>,
    shortages: u64,
}

impl SteadyDisk {
    /// An empty file.
    pub fn new(alloc: Global) -> SteadyDisk
        ensures { steady_bytes result ≡ [] }
    {
        SteadyDisk {
            bytes: Vec::new(alloc),
            shortages: 0,
        }
    }

    /// A file with these bytes.
    pub fn with_bytes(bytes: Vec<u8>) -> SteadyDisk
        ensures { steady_bytes result ≡ bytes.items }
    {
        SteadyDisk {
            bytes,
            shortages: 0,
        }
    }

    /// The bytes of the file.
    pub fn bytes(&self) -> &[u8]
        ensures { result.now ≡ steady_bytes self.now }
    {
        &self.bytes
    }
}

// Writes bytes over what is there and past the end. After an `Err` nothing has changed.
fn overlay(bytes: &mut Vec<u8>, at: usize, piece: &[u8]) -> Result<(), AllocError>
    requires { at ≤ length bytes.old.items }
    ensures ok { OnOk result (Holds bytes.old.items at piece.now bytes.new.items) }
    ensures err { OnErr result (bytes.new.items ≡ bytes.old.items) }
{
    let over = piece.len().min(bytes.len() - at);
    bytes.extend_from_slice(&piece[over..])?;
    bytes[at..at + over].copy_from_slice(&piece[..over]);
    Ok(())
}

// The same from any offset; what is missing before it is filled by zeros.
pub(crate) fn write(bytes: &mut Vec<u8>, at: usize, piece: &[u8]) -> Result<(), AllocError>
    ensures torn { OnOk result (Torn at (length piece.now) bytes.old.items bytes.new.items) }
    ensures ok { at ≤ length bytes.old.items → OnOk result (Holds bytes.old.items at piece.now bytes.new.items) }
{
    if at > bytes.len() {
        bytes.resize(at, 0)?;
    }
    overlay(bytes, at, piece)
}

impl Disk for SteadyDisk {
    ghost stands = { λ d h. seen h ≡ d.bytes.items };

    ghost is_honest = { λ _. Unit {0} };

    ghost faults = { λ _. 0 };

    ghost shortages = { λ d. d.shortages };

    fn read_at(&mut self, at: u64, into: &mut [u8]) -> Result<usize, DiskFault> {
        let at = at as usize;
        if at >= self.bytes.len() {
            return Ok(0);
        }
        let count = into.len().min(self.bytes.len() - at);
        into[..count].copy_from_slice(&self.bytes[at..at + count]);
        Ok(count)
    }

    fn write_at(&mut self, at: u64, piece: &[u8]) -> Result<(), DiskFault> {
        match write(&mut self.bytes, at as usize, piece) {
            Ok(()) => Ok(()),
            Err(_) => {
                self.shortages = self.shortages.saturating_add(1);
                Err(DiskFault::NoMemory)
            }
        }
    }

    fn cut(&mut self, to: u64) -> Result<(), DiskFault> {
        self.bytes.truncate(to as usize);
        Ok(())
    }

    fn sync(&mut self) -> Result<(), DiskFault> {
        Ok(())
    }
}
