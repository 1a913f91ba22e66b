// What a pair is between its calls, and how long its live file is.
ghost use Rattle.std.specs.Prelude.{◌≡◌, ◌+◌, ◌*◌, ◌≤◌, ◌⊎◌, ◌++◌, [], true, List, ℕ, map};
ghost use Rattle.journal_disk.specs.declared.disk.Moment.{Moment};
ghost use Rattle.journal_disk.specs.Disk.{seen, is_sound, MayLeave};
ghost use Rattle.journal_pair.specs.declared.mark.Mark.{Mark};
ghost use Rattle.journal_pair.specs.declared.entry.Entry.{Entry};
ghost use Rattle.journal_pair.specs.declared.entry.Entry.TheVariants.{Behind};
ghost use Rattle.journal_pair.specs.declared.pair.TheConstants.{FLOOR};
ghost use Rattle.journal_pair.specs.Entries.{generation, ArePair};
ghost use Rattle.journal_pair.specs.Files.{AreAt, PairOf, HasEntries, FoundBoth, size_of};

use journal_file::Item;

/// Between two calls a crash leaves two files of the pair's checkpoint and of the items behind it, and so does giving up
/// the pair.
pub fn law_pair_between_calls<T: Item>()
    ensures crash { (mark : Mark) (end other_end size : ℕ) (h k : List Moment) (checkpoint behind : List T) (x y : List ℕ) → AreAt T.spelled mark end other_end size h k checkpoint behind → MayLeave h x → MayLeave k y → PairOf T.spelled checkpoint behind x y }
    ensures parted { (mark : Mark) (end other_end size : ℕ) (h k : List Moment) (checkpoint behind : List T) → AreAt T.spelled mark end other_end size h k checkpoint behind → (PairOf T.spelled checkpoint behind (seen h) (seen k)) × (is_sound h ≡ true) × (is_sound k ≡ true) }
{}

/// What stands for a checkpoint and items behind it stands for no others.
pub fn law_one_state<T: Item>()
    ensures { (xs ys : List (Entry T)) (checkpoint behind kept later : List T) → ArePair checkpoint behind xs ys → ArePair kept later xs ys → (checkpoint ≡ kept) × (behind ≡ later) }
{}

/// The live file is as long as it was with its checkpoint alone, and the entries behind that. Where it was not due, it is
/// at most as long as `FLOOR` or twice as long as with its checkpoint alone, and the entries of one more append.
pub fn law_live_size<T: Item>()
    ensures long { (mark : Mark) (end other_end size : ℕ) (h k : List Moment) (checkpoint behind : List T) → AreAt T.spelled mark end other_end size h k checkpoint behind → end + 1 ≡ size + size_of T.spelled (map Behind behind) }
    ensures most { (mark : Mark) (end other_end size next : ℕ) (h k l : List Moment) (checkpoint behind items : List T) → AreAt T.spelled mark end other_end size h k checkpoint behind → AreAt T.spelled mark next other_end size l k checkpoint (behind ++ items) → (end + 1 ≤ FLOOR) ⊎ (end + 1 ≤ 2 * size) → (next + 1 ≤ FLOOR + size_of T.spelled (map Behind items)) ⊎ (next + 1 ≤ 2 * size + size_of T.spelled (map Behind items)) }
{}
