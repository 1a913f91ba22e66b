// The journal of a trail is made on a disk, and opened again.
ghost use Rattle.std.specs.Prelude.{◌≡◌, ◌<◌, [], true, false, List, ℕ, IfOk, IfErr};
ghost use Rattle.journal_disk.specs.declared.disk.Moment.{Moment};
ghost use Rattle.journal_disk.specs.Disk.{is_sound, Ran, HasRisen};
ghost use Rattle.journal_file.specs.Faults.{IsBad};
ghost use Rattle.dc_talk.specs.Answers.{History};
ghost use Rattle.dc_journal.specs.Open.{settings_of, disk_of, is_shut, IsJournalOf};
ghost use Rattle.dc_journal.specs.Files.{IsFileOf};
ghost use Rattle.trail_journal.specs.Files.{AreNumbers, Trail};

use crate::asking::ask_trail;
use dc_journal::JournalCentre;
use dc_talk::{Entry, Settings};
use journal_disk::Disk;
use journal_file::{JournalFault, OpenFault, Unopened};
use std::alloc::Global;

/// A centre with a new journal on a disk, whatever that held, after all asks of a trail. Where the trail is a history of
/// such a centre, and no sync of the disk has failed before, it stands for the trail. Until it answers, nothing is said of
/// what a crash leaves. `Err` is want of memory, or the disk has failed: of its count of faults only that it is above 0 is
/// said then.
pub fn journal_of<D: Disk>(
    alloc: Global,
    settings: Settings,
    trail: &[Entry],
    disk: D,
) -> Result<JournalCentre<D>, Unopened<D>>
    requires { AreNumbers settings }
    ensures ok { IfOk result (λ j. (h : List Moment) → D.stands disk h → is_sound h ≡ true → History settings trail.now → Ran (D.stands (disk_of j)) h (λ _. Unit {0}) (λ later. IsJournalOf j later trail.now)) }
    ensures numbers { IfOk result (λ j. settings_of j ≡ settings) }
    ensures open { IfOk result (λ j. is_shut j ≡ false) }
    ensures err { IfErr result (λ e. IsBad e.why → ⊥) }
    ensures failed { IfErr result (λ e. e.why ≡ OpenFault.Disk → 0 < D.faults e.disk) }
{
    let Settings { me, n, k, limit } = settings;
    match JournalCentre::create(alloc, me, n, k, limit, disk) {
        Ok(journal) => filled(alloc, journal, trail),
        Err(unopened) => Err(unopened),
    }
}

// The centre with an empty journal, after all asks of a trail.
fn filled<D: Disk>(
    alloc: Global,
    journal: JournalCentre<D>,
    trail: &[Entry],
) -> Result<JournalCentre<D>, Unopened<D>>
    requires { is_shut journal ≡ false }
    ensures ok { IfOk result (λ j. (h : List Moment) → D.stands (disk_of journal) h → IsJournalOf journal h [] → History (settings_of journal) trail.now → Ran (D.stands (disk_of j)) h (λ _. Unit {0}) (λ later. IsJournalOf j later trail.now)) }
    ensures numbers { IfOk result (λ j. settings_of j ≡ settings_of journal) }
    ensures open { IfOk result (λ j. is_shut j ≡ false) }
    ensures err { IfErr result (λ e. IsBad e.why → ⊥) }
    ensures failed { IfErr result (λ e. e.why ≡ OpenFault.Disk → 0 < D.faults e.disk) }
{
    let mut journal = journal;
    match ask_trail(alloc, &mut journal, trail) {
        Ok(()) => Ok(journal),
        Err(fault) => Err(Unopened {
            why: why_of(fault),
            disk: journal.part(),
        }),
    }
}

// Why no journal was made, where an ask was not answered.
fn why_of(fault: JournalFault) -> OpenFault
    requires { fault ≡ JournalFault.Shut → ⊥ }
    ensures bad { IsBad result → ⊥ }
    ensures disk { result ≡ OpenFault.Disk → fault ≡ JournalFault.Disk }
{
    match fault {
        JournalFault::Disk => OpenFault::Disk,
        JournalFault::NoMemory => OpenFault::NoMemory,
        JournalFault::Shut => unreachable!(),
    }
}

/// Gives up a centre with a journal, and opens its disk again. Where each read gave what stood there, the one that is opened
/// stands for the same trail, a crash at any moment of the call leaves the journal of that trail, and `Err` is want of memory
/// or the disk has failed: only where a read gave something else can a gate be bad.
pub fn reopened<D: Disk>(
    alloc: Global,
    settings: Settings,
    journal: JournalCentre<D>,
) -> Result<JournalCentre<D>, Unopened<D>>
    requires range { AreNumbers settings }
    requires same { settings_of journal ≡ settings }
    ensures ok { IfOk result (λ j. (h : List Moment) (trail : Trail) → D.is_honest (disk_of j) → D.stands (disk_of journal) h → IsJournalOf journal h trail
        → Ran (D.stands (disk_of j)) h (IsFileOf settings trail) (λ later. IsJournalOf j later trail)) }
    ensures numbers { IfOk result (λ j. settings_of j ≡ settings) }
    ensures open { IfOk result (λ j. is_shut j ≡ false) }
    ensures err { IfErr result (λ e. (h : List Moment) (trail : Trail) → D.is_honest e.disk → D.stands (disk_of journal) h → IsJournalOf journal h trail
        → Ran (D.stands e.disk) h (IsFileOf settings trail) (λ _. IsBad e.why → ⊥)) }
    ensures failed { IfErr result (λ e. e.why ≡ OpenFault.Disk → HasRisen (D.faults (disk_of journal)) (D.faults e.disk)) }
{
    let Settings { me, n, k, limit } = settings;
    JournalCentre::open(alloc, me, n, k, limit, journal.part())
}
