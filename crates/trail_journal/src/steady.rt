// The journal of a trail on a disk in memory.
ghost use Rattle.std.specs.Prelude.{◌≡◌, List, IfOk};
ghost use Rattle.journal_disk.specs.declared.disk.Moment.{Moment};
ghost use Rattle.journal_disk.specs.Disk.{seen};
ghost use Rattle.journal_disk.specs.Steady.{steady_bytes};
ghost use Rattle.journal_file.specs.Faults.{IsBad};
ghost use Rattle.dc_talk.specs.Answers.{History};
ghost use Rattle.dc_journal.specs.Open.{settings_of, disk_of, IsJournalOf};
ghost use Rattle.trail_journal.specs.Files.{AreNumbers, IsJust};
ghost use Rattle.trail_journal.specs.Told.{told_of};

use crate::entries::entries_in;
use crate::journal::{journal_of, reopened};
use crate::told::Told;
use dc_journal::JournalCentre;
use dc_talk::{Entry, Settings};
use ids_core::NoMemory;
use journal_disk::{Disk, SteadyDisk};
use journal_file::OpenFault;
use std::alloc::Global;

/// The disk with the journal of a trail, and what is told of it once the disk was opened again.
pub(crate) fn told_journal(
    alloc: Global,
    settings: Settings,
    trail: &[Entry],
) -> Result<(Told, SteadyDisk), NoMemory>
    requires numbers { AreNumbers settings }
    requires history { History settings trail.now }
    ensures just { IfOk result (λ r. IsJust settings trail.now (steady_bytes r.1)) }
    ensures told { IfOk result (λ r. r.0 ≡ told_of settings trail.now (steady_bytes r.1)) }
{
    match journal_of(alloc, settings, trail, SteadyDisk::new(alloc)) {
        Ok(journal) => told_again(alloc, settings, trail, journal),
        Err(unopened) => Err(no_memory(unopened.why)),
    }
}

// The same of an open journal of the trail.
fn told_again(
    alloc: Global,
    settings: Settings,
    trail: &[Entry],
    journal: JournalCentre<SteadyDisk>,
) -> Result<(Told, SteadyDisk), NoMemory>
    requires numbers { AreNumbers settings }
    requires same { settings_of journal ≡ settings }
    requires stood { (h : List Moment) × ((seen h ≡ steady_bytes (disk_of journal)) × (IsJournalOf journal h trail.now)) }
    ensures just { IfOk result (λ r. IsJust settings trail.now (steady_bytes r.1)) }
    ensures told { IfOk result (λ r. r.0 ≡ told_of settings trail.now (steady_bytes r.1)) }
{
    match reopened(alloc, settings, journal) {
        Ok(journal) => {
            let told = told_by(settings, trail, &journal);
            Ok((told, journal.part()))
        }
        Err(unopened) => Err(no_memory(unopened.why)),
    }
}

// What is told of an open journal of a trail.
fn told_by<D: Disk>(settings: Settings, trail: &[Entry], journal: &JournalCentre<D>) -> Told
    requires { settings_of journal.now ≡ settings }
    ensures { (h : List Moment) → IsJournalOf journal.now h trail.now → result ≡ told_of settings trail.now (seen h) }
{
    Told {
        centre: settings.me,
        entries: entries_in(trail),
        bytes: journal.size(),
        vector: journal.vector(),
    }
}

// The one reason for which a journal on such a disk is not made or opened.
fn no_memory(why: OpenFault) -> NoMemory
    requires bad { IsBad why → ⊥ }
    requires disk { why ≡ OpenFault.Disk → ⊥ }
{
    match why {
        OpenFault::NoMemory => NoMemory,
        OpenFault::Disk | OpenFault::Bad(_) => unreachable!(),
    }
}
