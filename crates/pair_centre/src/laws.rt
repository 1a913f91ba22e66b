// What is left of a centre's files between two calls.
ghost use Rattle.std.specs.Prelude.{◌≡◌, true, List, ℕ};
ghost use Rattle.journal_disk.specs.declared.disk.Moment.{Moment};
ghost use Rattle.journal_disk.specs.Disk.{seen, is_sound, MayLeave};
ghost use Rattle.dc_talk.specs.Entries.{Entry};
ghost use Rattle.pair_centre.specs.States.{IsPairFileOf};
ghost use Rattle.pair_centre.specs.Open.{settings_of, IsPairOf};

use crate::PairCentre;
use journal_disk::Disk;

/// Between two calls a crash leaves two files of the trail that the centre stands for, and so does giving up the journal.
pub fn law_between_calls<D: Disk>(_p: &PairCentre<D>)
    ensures crash { (h k : List Moment) (trail : List Entry) (x y : List ℕ) → IsPairOf _p.now h k trail → MayLeave h x → MayLeave k y → IsPairFileOf (settings_of _p.now) trail x y }
    ensures parted { (h k : List Moment) (trail : List Entry) → IsPairOf _p.now h k trail → IsPairFileOf (settings_of _p.now) trail (seen h) (seen k) × (is_sound h ≡ true) × (is_sound k ≡ true) }
{}
