// What is left of a centre's journal between two calls.
ghost use Rattle.std.specs.Prelude.{◌≡◌, true, List, ℕ};
ghost use Rattle.journal_disk.specs.declared.disk.Moment.{Moment};
ghost use Rattle.journal_disk.specs.Disk.{seen, is_sound, MayLeave};
ghost use Rattle.dc_talk.specs.Entries.{Entry};
ghost use Rattle.dc_journal.specs.Files.{IsFileOf};
ghost use Rattle.dc_journal.specs.Open.{settings_of, IsJournalOf};

use crate::JournalCentre;
use journal_disk::Disk;

/// Between two calls a crash leaves a file of the trail that the centre stands for, and so does giving up the journal.
pub fn law_between_calls<D: Disk>(_j: &JournalCentre<D>)
    ensures crash { (h : List Moment) (trail : List Entry) (file : List ℕ) → IsJournalOf _j.now h trail → MayLeave h file → IsFileOf (settings_of _j.now) trail file }
    ensures parted { (h : List Moment) (trail : List Entry) → IsJournalOf _j.now h trail → IsFileOf (settings_of _j.now) trail (seen h) × (is_sound h ≡ true) }
{}
