// The file of a journal is begun, or read and cut behind its last gate.
ghost use Rattle.std.specs.Prelude.{◌≡◌, ◌+◌, ◌<◌, ◌≤◌, ◌^◌, true, List, [], ◌∷◌, ℕ, length, MatchResult, OnOk, IfOk, IfErr};
ghost use Rattle.journal_disk.specs.declared.disk.Moment.{Moment};
ghost use Rattle.journal_disk.specs.Disk.{seen, is_sound, IsSettled, Ran, HasRisen, HasCause};
ghost use Rattle.journal_file.specs.Journal.{IsAt, FileOf, EndsAt, IsBadAt, Found};
ghost use Rattle.journal_file.specs.Faults.{IsBad};

use crate::{Item, OpenFault};
use journal_disk::{Disk, DiskFault, read_all, settle, shorten, store};
use std::alloc::Global;

/// The items of a file, and where its closed gate stands. A bad gate is told by its place.
pub fn parse<T: Item>(alloc: Global, bytes: &[u8]) -> Result<(usize, Vec<T>), OpenFault>
    ensures ends { IfOk result (λ r. EndsAt T.spelled r.1.items r.0 bytes.now) }
    ensures within { IfOk result (λ r. r.0 < length bytes.now) }
    ensures only { IfOk result (λ r. (xs : List T) → FileOf T.spelled xs bytes.now → r.1.items ≡ xs) }
    ensures bad { IfErr result (λ e. (xs : List T) → FileOf T.spelled xs bytes.now → IsBad e → ⊥) }
    ensures place { IfErr result (λ e. (place : ℕ) → e ≡ OpenFault.Bad place → IsBadAt T.spelled place bytes.now) }
    ensures no_disk { IfErr result (λ e. e ≡ OpenFault.Disk → ⊥) }
{
    let mut items = Vec::new(alloc);
    let mut at = 0;
    while at < bytes.len() {
        if bytes[at] == 0 {
            return Ok((at, items));
        }
        match T::read(alloc, &bytes[at + 1..])? {
            None => return Err(OpenFault::Bad(at as u64)),
            Some((item, count)) => {
                items.push(item)?;
                at += 1 + count;
            }
        }
    }
    Err(OpenFault::Bad(at as u64))
}

/// Settles a file, reads it and cuts it behind its closed gate, of which it tells the place, with the items.
pub fn recover<D: Disk, T: Item>(alloc: Global, disk: &mut D) -> Result<(u64, Vec<T>), OpenFault>
    ensures moments { (h : List Moment) (xs : List T) → D.is_honest disk.new → D.stands disk.old h → is_sound h ≡ true → FileOf T.spelled xs (seen h)
        → Ran (D.stands disk.new) h (Found T.spelled xs h) (λ later. MatchResult result (λ r. (IsAt T.spelled r.0 later xs) × (r.1.items ≡ xs)) (λ e. IsBad e → ⊥)) }
    ensures is { IfOk result (λ r. (h : List Moment) → D.is_honest disk.new → D.stands disk.old h → is_sound h ≡ true → FileOf T.spelled r.1.items (seen h)) }
    ensures place { IfErr result (λ e. (h : List Moment) (place : ℕ) → e ≡ OpenFault.Bad place → D.is_honest disk.new → D.stands disk.old h → is_sound h ≡ true → IsBadAt T.spelled place (seen h)) }
    ensures few { IfOk result (λ r. r.0 + 1 < 2 ^ 64) }
    ensures failed { IfErr result (λ e. e ≡ OpenFault.Disk → HasRisen (D.faults disk.old) (D.faults disk.new)) }
{
    settle(disk)?;
    let bytes = read_all(alloc, disk)?;
    let (end, items) = parse(alloc, &bytes)?;
    shorten(disk, end as u64 + 1)?;
    Ok((end as u64, items))
}

/// Empties a file and writes one closed gate.
pub fn begin<D: Disk>(disk: &mut D) -> Result<(), DiskFault>
    ensures moments { (h : List Moment) → D.stands disk.old h → is_sound h ≡ true → Ran (D.stands disk.new) h (λ _. Unit {0}) (λ later. OnOk result ((IsSettled later) × (seen later ≡ 0 ∷ []))) }
    ensures cause { HasCause (D.faults disk.old) (D.faults disk.new) (D.shortages disk.old) (D.shortages disk.new) result }
{
    settle(disk)?;
    shorten(disk, 0)?;
    store(disk, 0, &[0])
}
