// Items behind a closed gate, which is opened once they are on the disk.
ghost use Rattle.std.specs.Prelude.{◌≡◌, ◌+◌, ◌<◌, ◌≤◌, ◌^◌, ◌++◌, [], ◌∷◌, List, ℕ, length, drop, IfOk, OnOk};
ghost use Rattle.journal_disk.specs.declared.disk.Moment.{Moment};
ghost use Rattle.journal_disk.specs.Disk.{seen, IsSettled, Ran, HasCause};
ghost use Rattle.journal_file.specs.Journal.{opened, Published, IsWiped};

use crate::Item;
use journal_disk::{Disk, DiskFault, shorten, store};
use std::alloc::{AllocError, Global};

/// The entries of items behind open gates, and a closed gate.
pub fn spell_all<T: Item>(alloc: Global, items: &[T]) -> Result<Vec<u8>, AllocError>
    ensures { IfOk result (λ out. out.items ≡ opened T.spelled items.now ++ 0 ∷ []) }
{
    let mut out = Vec::new(alloc);
    for item in items {
        out.push(1)?;
        item.spell(&mut out)?;
    }
    out.push(0)?;
    Ok(out)
}

/// Writes entries whose first gate stands at the end of a file, and opens that gate.
pub fn publish<D: Disk>(disk: &mut D, end: u64, out: &[u8]) -> Result<(), DiskFault>
    requires few { end < 2 ^ 62 }
    requires some { 0 < length out.now }
    ensures moments { (h : List Moment) (front : List ℕ) → D.stands disk.old h → IsSettled h → seen h ≡ front ++ 0 ∷ [] → length front ≡ end → Ran (D.stands disk.new) h (Published front (drop 1 out.now)) (λ later. OnOk result ((IsSettled later) × (seen later ≡ front ++ 1 ∷ drop 1 out.now))) }
    ensures honest { D.is_honest disk.new → D.is_honest disk.old }
    ensures cause { HasCause (D.faults disk.old) (D.faults disk.new) (D.shortages disk.old) (D.shortages disk.new) result }
{
    store(disk, end + 1, &out[1..])?;
    store(disk, end, &[1])
}

/// Closes the first gate of a file, and cuts the file behind it.
pub fn wipe<D: Disk>(disk: &mut D) -> Result<(), DiskFault>
    ensures moments { (h : List Moment) (gate : ℕ) (rest : List ℕ) → D.stands disk.old h → IsSettled h → seen h ≡ gate ∷ rest → Ran (D.stands disk.new) h (IsWiped rest) (λ later. OnOk result ((IsSettled later) × (seen later ≡ 0 ∷ []))) }
    ensures honest { D.is_honest disk.new → D.is_honest disk.old }
    ensures cause { HasCause (D.faults disk.old) (D.faults disk.new) (D.shortages disk.old) (D.shortages disk.new) result }
{
    store(disk, 0, &[0])?;
    shorten(disk, 1)
}
