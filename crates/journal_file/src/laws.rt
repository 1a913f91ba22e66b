// What is left of a journal between two of its calls.
ghost use Rattle.std.specs.Prelude.{◌≡◌, true, List, ℕ};
ghost use Rattle.journal_disk.specs.declared.disk.Moment.{Moment};
ghost use Rattle.journal_disk.specs.Disk.{seen, is_sound, MayLeave};
ghost use Rattle.journal_file.specs.Journal.{IsAt, FileOf};

use crate::Item;

/// Between two calls a crash leaves a file of the journal's items, and so does giving up the journal.
pub fn law_between_calls<T: Item>()
    ensures crash { (end : ℕ) (h : List Moment) (xs : List T) (file : List ℕ) → IsAt T.spelled end h xs → MayLeave h file → FileOf T.spelled xs file }
    ensures parted { (end : ℕ) (h : List Moment) (xs : List T) → IsAt T.spelled end h xs → FileOf T.spelled xs (seen h) × (is_sound h ≡ true) }
{}
