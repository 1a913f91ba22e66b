// A file is begun with the first generation of a pair.
ghost use Rattle.std.specs.Prelude.{◌≡◌, ◌++◌, [], ◌∷◌, true, false, List, OnOk, IfOk, IfErr};
ghost use Rattle.journal_disk.specs.declared.disk.Moment.{Moment};
ghost use Rattle.journal_disk.specs.Disk.{seen, is_sound, IsSettled, Ran, HasRisen, HasCause};
ghost use Rattle.journal_file.specs.Faults.{IsBad};
ghost use Rattle.journal_file.specs.Journal.{IsAt, opened};
ghost use Rattle.journal_file.specs.Open.{disk_of, end_of, is_shut as journal_shut};
ghost use Rattle.journal_pair.specs.Entries.{entry_bytes, generation};

use crate::generations::begun;
use crate::{Entry, Mark};
use journal_disk::{Disk, DiskFault, settle, shorten, store};
use journal_file::{Item, Journal, OpenFault, Unopened, spell_all};
use std::alloc::{AllocError, Global};

/// Begins a generation with an empty checkpoint on a disk, whatever it held. Until it answers, nothing is said of what a
/// crash leaves.
pub fn start<D: Disk, T: Item>(
    alloc: Global,
    mark: Mark,
    disk: D,
) -> Result<Journal<D>, Unopened<D>>
    ensures ok { IfOk result (λ live. (h : List Moment) → D.stands disk h → is_sound h ≡ true → Ran (D.stands (disk_of live)) h (λ _. Unit {0}) (λ l. IsAt (entry_bytes T.spelled) (end_of live) l (generation mark [] []))) }
    ensures open { IfOk result (λ live. journal_shut live ≡ false) }
    ensures err { IfErr result (λ e. IsBad e.why → ⊥) }
    ensures failed { IfErr result (λ e. e.why ≡ OpenFault.Disk → HasRisen (D.faults disk) (D.faults e.disk)) }
{
    let mut disk = disk;
    let out = match first_bytes::<T>(alloc, mark) {
        Ok(out) => out,
        Err(_) => {
            return Err(Unopened {
                why: OpenFault::NoMemory,
                disk,
            });
        }
    };
    match write_anew(&mut disk, &out) {
        Ok(()) => Journal::resume::<Entry<T>>(alloc, disk, out.len() as u64 - 1),
        Err(fault) => Err(Unopened {
            why: fault.into(),
            disk,
        }),
    }
}

// The bytes of a file that has a generation with an empty checkpoint alone.
fn first_bytes<T: Item>(alloc: Global, mark: Mark) -> Result<Vec<u8>, AllocError>
    ensures { IfOk result (λ out. out.items ≡ opened (entry_bytes T.spelled) (generation mark [] []) ++ 0 ∷ []) }
{
    let entries = begun::<T>(alloc, mark, Vec::new(alloc))?;
    spell_all(alloc, &entries)
}

// Empties a file and writes these bytes.
fn write_anew<D: Disk>(disk: &mut D, bytes: &[u8]) -> Result<(), DiskFault>
    ensures moments { (h : List Moment) → D.stands disk.old h → is_sound h ≡ true → Ran (D.stands disk.new) h (λ _. Unit {0}) (λ later. OnOk result ((IsSettled later) × (seen later ≡ bytes.now))) }
    ensures cause { HasCause (D.faults disk.old) (D.faults disk.new) (D.shortages disk.old) (D.shortages disk.new) result }
{
    settle(disk)?;
    shorten(disk, 0)?;
    store(disk, 0, bytes)
}
