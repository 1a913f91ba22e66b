// A centre with a journal is asked what a trail has.
ghost use Rattle.std.specs.Prelude.{◌≡◌, ◌<◌, ◌++◌, [], true, false, List, ℕ, length, map, IsOk, IsErrOf, IfOk, OnOk};
ghost use Rattle.journal_disk.specs.declared.disk.Moment.{Moment};
ghost use Rattle.journal_disk.specs.Disk.{Ran};
ghost use Rattle.dc_talk.specs.Answers.{History};
ghost use Rattle.dc_journal.specs.Open.{settings_of, disk_of, is_shut, IsJournalOf};
ghost use Rattle.trail_journal.specs.Files.{Trail, ask_in};

use dc_journal::JournalCentre;
use dc_talk::{Ask, Entry};
use journal_disk::Disk;
use journal_file::JournalFault;
use std::alloc::{AllocError, Global};

// How many asks of a trail are made at once.
const GROUP: usize = 64;

/// Asks a centre that was asked nothing yet all asks of a trail, group by group.
pub(crate) fn ask_trail<D: Disk>(
    alloc: Global,
    journal: &mut JournalCentre<D>,
    trail: &[Entry],
) -> Result<(), JournalFault>
    requires { is_shut journal.old ≡ false }
    ensures stands { OnOk result ((h : List Moment) → D.stands (disk_of journal.old) h → IsJournalOf journal.old h [] → History (settings_of journal.old) trail.now
        → Ran (D.stands (disk_of journal.new)) h (λ _. Unit {0}) (λ later. IsJournalOf journal.new later trail.now)) }
    ensures numbers { settings_of journal.new ≡ settings_of journal.old }
    ensures open { IsOk result → is_shut journal.new ≡ false }
    ensures no_shut { IsErrOf result JournalFault.Shut → ⊥ }
    ensures failed { IsErrOf result JournalFault.Disk → 0 < D.faults (disk_of journal.new) }
{
    let mut rest = trail;
    'groups: while !rest.is_empty() {
        let (group, behind) = rest.split_at(rest.len().min(GROUP));
        ask_group(alloc, journal, group)?;
        rest = behind;
    }
    Ok(())
}

// Asks a centre all asks of a part of a trail at once.
fn ask_group<D: Disk>(
    alloc: Global,
    journal: &mut JournalCentre<D>,
    group: &[Entry],
) -> Result<(), JournalFault>
    requires { is_shut journal.old ≡ false }
    ensures stands { OnOk result ((h : List Moment) (front : Trail) → D.stands (disk_of journal.old) h → IsJournalOf journal.old h front → History (settings_of journal.old) (front ++ group.now)
        → Ran (D.stands (disk_of journal.new)) h (λ _. Unit {0}) (λ later. IsJournalOf journal.new later (front ++ group.now))) }
    ensures numbers { settings_of journal.new ≡ settings_of journal.old }
    ensures open { IsOk result → is_shut journal.new ≡ false }
    ensures no_shut { IsErrOf result JournalFault.Shut → ⊥ }
    ensures failed { IsErrOf result JournalFault.Disk → 0 < D.faults (disk_of journal.new) }
{
    let asks = asks_in(alloc, group)?;
    let says = journal.ask_all(&asks)?;
    if says.len() < group.len() {
        return Err(JournalFault::NoMemory);
    }
    Ok(())
}

/// Copies of the asks of entries.
pub fn asks_in(alloc: Global, entries: &[Entry]) -> Result<Vec<Ask>, AllocError>
    ensures { IfOk result (λ asks. asks.items ≡ map ask_in entries.now) }
{
    let mut asks = Vec::new(alloc);
    for entry in entries {
        asks.push(entry.ask.clone()?)?;
    }
    Ok(asks)
}
