// Calls that belong together: a write with its sync, a cut with its sync, a sync alone, and reads to the end.
ghost use Rattle.std.specs.Prelude.{◌≡◌, ◌≤◌, ◌⊎◌, true, List, ℕ, length, IfOk, OnOk, IsErrOf};
ghost use Rattle.journal_disk.specs.declared.disk.Moment.{Moment};
ghost use Rattle.journal_disk.specs.Disk.{seen, is_sound, Holds, Shortens, Torn, Between, IsSettled, Ran, MayLeave, HasRisen, HasCause};

use crate::{Disk, DiskFault};
use std::alloc::Global;

/// A write and a sync. Where all was settled before, a crash leaves at each moment what such a write cut short may
/// leave, and after an `Ok` what was written.
pub fn store<D: Disk>(disk: &mut D, at: u64, piece: &[u8]) -> Result<(), DiskFault>
    ensures stands { (h : List Moment) → D.stands disk.old h → IsSettled h → at ≤ length (seen h) → Ran (D.stands disk.new) h (Torn at (length piece.now) (seen h)) (λ later. OnOk result ((IsSettled later) × (Holds (seen h) at piece.now (seen later)))) }
    ensures honest { D.is_honest disk.new → D.is_honest disk.old }
    ensures cause { HasCause (D.faults disk.old) (D.faults disk.new) (D.shortages disk.old) (D.shortages disk.new) result }
{
    disk.write_at(at, piece)?;
    disk.sync()
}

/// A cut and a sync. Where all was settled before, a crash leaves at each moment what such a cut cut short may leave,
/// and after an `Ok` what is left of the file.
pub fn shorten<D: Disk>(disk: &mut D, to: u64) -> Result<(), DiskFault>
    ensures stands { (h : List Moment) → D.stands disk.old h → IsSettled h → to ≤ length (seen h) → Ran (D.stands disk.new) h (Between to (seen h)) (λ later. OnOk result ((IsSettled later) × (Shortens to (seen h) (seen later)))) }
    ensures honest { D.is_honest disk.new → D.is_honest disk.old }
    ensures cause { HasCause (D.faults disk.old) (D.faults disk.new) (D.shortages disk.old) (D.shortages disk.new) result }
{
    disk.cut(to)?;
    disk.sync()
}

/// A sync of a file of which anything may be unsettled, but no sync has failed. After an `Ok` a crash leaves what a read
/// gives.
pub fn settle<D: Disk>(disk: &mut D) -> Result<(), DiskFault>
    ensures stands { (h : List Moment) → D.stands disk.old h → is_sound h ≡ true → Ran (D.stands disk.new) h (λ c. (MayLeave h c) ⊎ (c ≡ seen h)) (λ later. OnOk result ((IsSettled later) × (seen later ≡ seen h))) }
    ensures honest { D.is_honest disk.new → D.is_honest disk.old }
    ensures cause { HasCause (D.faults disk.old) (D.faults disk.new) (D.shortages disk.old) (D.shortages disk.new) result }
{
    disk.sync()
}

/// All bytes of the file, by reads from its start on.
pub fn read_all<D: Disk>(alloc: Global, disk: &mut D) -> Result<Vec<u8>, DiskFault>
    ensures bytes { IfOk result (λ bytes. D.is_honest disk.new → (h : List Moment) → D.stands disk.old h → bytes.items ≡ seen h) }
    ensures stands { (h : List Moment) → D.stands disk.old h → D.stands disk.new h }
    ensures honest { D.is_honest disk.new → D.is_honest disk.old }
    ensures faults { D.faults disk.old ≤ D.faults disk.new }
    ensures failed { IsErrOf result DiskFault.Failed → HasRisen (D.faults disk.old) (D.faults disk.new) }
{
    let mut bytes = Vec::new(alloc);
    let mut piece = [0u8; 4096];
    for _turn in 0..u64::MAX {
        let count = disk.read_at(bytes.len() as u64, &mut piece)?;
        if count == 0 {
            return Ok(bytes);
        }
        bytes.extend_from_slice(&piece[..count])?;
    }
    Err(DiskFault::NoMemory)
}
