// Two files, of which one is live.
ghost use Rattle.std.specs.Prelude.{◌≡◌, ◌+◌, [], false, List, IfOk, IfErr};
ghost use Rattle.journal_disk.specs.declared.disk.Moment.{Moment};
ghost use Rattle.journal_file.specs.Open.{disk_of};
ghost use Rattle.journal_pair.specs.Entries.{generation};
ghost use Rattle.journal_pair.specs.Faults.{IsBadPair};
ghost use Rattle.journal_pair.specs.Files.{size_of};
ghost use Rattle.journal_pair.specs.Pairs.{live_disk, other_disk, is_shut, Has, IsSeated};

use crate::beginning::start;
use crate::generations::{Taken, begun, behind_all, checkpoint_size};
use crate::opening::choose;
use crate::{Entry, Mark, PairFault, Side};
use journal_disk::Disk;
use journal_file::{Item, Journal, JournalFault, OpenFault};
use std::alloc::Global;
use std::mem;

/// A live file of at most so many bytes is never due: one block of most disks.
pub const FLOOR: u64 = 4096;

/// A journal in two files that is open for more items. Contracts see the disks of its live file and of the other one,
/// how long its live file is and was with its checkpoint alone, and whether it is shut. After a call in which a disk
/// failed it is shut, and has to be opened anew.
#[derive(Drop)]
pub struct Pair<D: Disk> {
    alloc: Global,
    live: Journal<D>,
    other: Journal<D>,
    mark: Mark,
    size: u64,
}

/// A pair that was opened, with its checkpoint and the items behind it.
#[derive(Drop)]
pub struct Opened<D: Disk, T> {
    pub pair: Pair<D>,
    /// Which of the two disks has its live file.
    pub side: Side,
    pub checkpoint: Vec<T>,
    pub behind: Vec<T>,
}

/// Two disks on which no pair was made or opened, and why.
#[derive(Drop)]
pub struct Unopened<D: Disk> {
    pub why: PairFault,
    pub first: D,
    pub second: D,
}

impl<D: Disk> Pair<D> {
    ghost use Rattle.std.specs.Prelude.{◌++◌, ◌∷◌, ◌*◌, ◌^◌, ◌<◌, ◌≤◌, ◌⊎◌, ◌↔◌, true, map, Err, IsOk, IsErr, IsErrOf, IsTrue, MatchResult, OnOk, OnErr};
    ghost use Rattle.journal_disk.specs.Disk.{seen, is_sound, HasRisen};
    ghost use Rattle.journal_file.specs.Journal.{opened};
    ghost use Rattle.journal_pair.specs.declared.entry.Entry.{Entry as EntryOf};
    ghost use Rattle.journal_pair.specs.declared.entry.Entry.TheVariants.{Behind as BehindOf};
    ghost use Rattle.journal_pair.specs.declared.pair.TheConstants.{FLOOR};
    ghost use Rattle.journal_pair.specs.Entries.{entry_bytes, ArePair};
    ghost use Rattle.journal_pair.specs.Files.{HasEntries, RanBeside, RanBoth, IsEitherPair, PairOf, FoundBoth};
    ghost use Rattle.journal_pair.specs.Causes.{HasCauseIn};
    ghost use Rattle.journal_pair.specs.Choices.{at_side, beside};
    ghost use Rattle.journal_pair.specs.Pairs.{live_size, checkpoint_size};

    /// Makes a pair with an empty checkpoint on two disks, whatever they held. Until it answers, nothing is said of what
    /// a crash leaves.
    pub fn create<T: Item>(alloc: Global, first: D, second: D) -> Result<Pair<D>, Unopened<D>>
        ensures ok { IfOk result (λ pair. (h k : List Moment) → D.stands first h → D.stands second k → is_sound h ≡ true → is_sound k ≡ true → RanBoth (D.stands (live_disk pair)) (D.stands (other_disk pair)) h k (λ _ _. Unit {0}) (λ l m. Has T.spelled pair l m [] [])) }
        ensures open { IfOk result (λ pair. is_shut pair ≡ false) }
        ensures err { IfErr result (λ e. IsBadPair e.why → ⊥) }
        ensures failed_first { IfErr result (λ e. e.why ≡ PairFault.File Side.First OpenFault.Disk → HasRisen (D.faults first) (D.faults e.first)) }
        ensures failed_second { IfErr result (λ e. e.why ≡ PairFault.File Side.Second OpenFault.Disk → HasRisen (D.faults second) (D.faults e.second)) }
    {
        let other = match Journal::create(alloc, second) {
            Ok(other) => other,
            Err(failed) => {
                return Err(Unopened {
                    why: PairFault::File(Side::Second, failed.why),
                    first,
                    second: failed.disk,
                });
            }
        };
        let mark = Mark::first();
        match start::<D, T>(alloc, mark, first) {
            Ok(live) => {
                let size = live.size();
                Ok(Pair {
                    alloc,
                    live,
                    other,
                    mark,
                    size,
                })
            }
            Err(failed) => Err(Unopened {
                why: PairFault::File(Side::First, failed.why),
                first: failed.disk,
                second: other.part(),
            }),
        }
    }

    /// Opens the pair of two disks on which a call may have been cut short, and reads its checkpoint and the items behind.
    pub fn open<T: Item>(alloc: Global, first: D, second: D) -> Result<Opened<D, T>, Unopened<D>>
        ensures ok { IfOk result (λ r. (h k : List Moment) (xs ys : List (EntryOf T)) (checkpoint behind : List T) → D.is_honest (live_disk r.pair) → D.is_honest (other_disk r.pair) → D.stands first h → D.stands second k → is_sound h ≡ true → is_sound k ≡ true → HasEntries T.spelled xs (seen h) → HasEntries T.spelled ys (seen k) → ArePair checkpoint behind xs ys
            → (r.checkpoint.items ≡ checkpoint) × (r.behind.items ≡ behind) × (RanBoth (D.stands (at_side r.side (live_disk r.pair) (other_disk r.pair))) (D.stands (beside r.side (live_disk r.pair) (other_disk r.pair))) h k (FoundBoth T.spelled xs ys h k) (λ l m. Has T.spelled r.pair (at_side r.side l m) (beside r.side l m) checkpoint behind))) }
        ensures is { IfOk result (λ r. (h k : List Moment) → D.is_honest (live_disk r.pair) → D.is_honest (other_disk r.pair) → D.stands first h → D.stands second k → is_sound h ≡ true → is_sound k ≡ true → PairOf T.spelled r.checkpoint.items r.behind.items (seen h) (seen k)) }
        ensures open { IfOk result (λ r. is_shut r.pair ≡ false) }
        ensures err { IfErr result (λ e. (h k : List Moment) (xs ys : List (EntryOf T)) (checkpoint behind : List T) → D.is_honest e.first → D.is_honest e.second → D.stands first h → D.stands second k → is_sound h ≡ true → is_sound k ≡ true → HasEntries T.spelled xs (seen h) → HasEntries T.spelled ys (seen k) → ArePair checkpoint behind xs ys
            → RanBoth (D.stands e.first) (D.stands e.second) h k (FoundBoth T.spelled xs ys h k) (λ _ _. IsBadPair e.why → ⊥)) }
        ensures cause { IfErr result (λ e. (h k : List Moment) → D.is_honest e.first → D.is_honest e.second → D.stands first h → D.stands second k → is_sound h ≡ true → is_sound k ≡ true → HasCauseIn T.spelled e.why (seen h) (seen k)) }
        ensures failed_first { IfErr result (λ e. e.why ≡ PairFault.File Side.First OpenFault.Disk → HasRisen (D.faults first) (D.faults e.first)) }
        ensures failed_second { IfErr result (λ e. e.why ≡ PairFault.File Side.Second OpenFault.Disk → HasRisen (D.faults second) (D.faults e.second)) }
    {
        let (a, xs) = match Journal::open::<Entry<T>>(alloc, first) {
            Ok(opened) => opened,
            Err(e) => {
                return Err(Unopened {
                    why: PairFault::File(Side::First, e.why),
                    first: e.disk,
                    second,
                });
            }
        };
        let (b, ys) = match Journal::open::<Entry<T>>(alloc, second) {
            Ok(opened) => opened,
            Err(e) => {
                return Err(Unopened {
                    why: PairFault::File(Side::Second, e.why),
                    first: a.part(),
                    second: e.disk,
                });
            }
        };
        match choose(alloc, xs, ys) {
            Ok((side, taken)) => seat(alloc, a, b, side, taken),
            Err(why) => Err(Unopened {
                why,
                first: a.part(),
                second: b.part(),
            }),
        }
    }

    /// Puts items behind the others, all behind one gate. A crash at any moment of the call leaves the old items or all,
    /// and after an `Ok` all. After an `Err` the old ones are there, or it is shut; the items of the call are gone.
    pub fn append<T: Item>(&mut self, items: Vec<T>) -> Result<(), JournalFault>
        ensures moments { (h k : List Moment) (checkpoint behind : List T) → is_shut self.old ≡ false → D.stands (live_disk self.old) h → D.stands (other_disk self.old) k → Has T.spelled self.old h k checkpoint behind
            → (RanBeside (D.stands (live_disk self.new)) h k (IsEitherPair T.spelled checkpoint behind checkpoint (behind ++ items.items)) (λ l. MatchResult result (λ _. Has T.spelled self.new l k checkpoint (behind ++ items.items)) (λ _. is_shut self.new ≡ false → Has T.spelled self.new l k checkpoint behind))) × (D.stands (other_disk self.new) k) }
        ensures open { IsOk result → is_shut self.new ≡ false }
        ensures shut { is_shut self.old ≡ true → (result ≡ Err JournalFault.Shut) × (self.new ≡ self.old) }
        ensures only_shut { IsErrOf result JournalFault.Shut → is_shut self.old ≡ true }
        ensures failed { IsErrOf result JournalFault.Disk → HasRisen (D.faults (live_disk self.old)) (D.faults (live_disk self.new)) }
        ensures closes { IsErrOf result JournalFault.Disk → is_shut self.new ≡ true }
        ensures short { IsErrOf result JournalFault.NoMemory → is_shut self.new ≡ true → HasRisen (D.shortages (live_disk self.old)) (D.shortages (live_disk self.new)) }
        ensures same { IsErrOf result JournalFault.NoMemory → is_shut self.new ≡ false → self.new ≡ self.old }
        ensures honest { D.is_honest (live_disk self.new) → D.is_honest (live_disk self.old) }
        ensures other { other_disk self.new ≡ other_disk self.old }
    {
        if self.is_shut() {
            return Err(JournalFault::Shut);
        }
        let entries = behind_all(self.alloc, items)?;
        self.live.append(&entries)
    }

    /// Whether its live file is at most 2^62 bytes long, so that items can be put behind it.
    pub fn has_room(&self) -> bool
        ensures { IsTrue result ↔ (live_size self.now ≤ 2 ^ 62) }
    {
        self.live.has_room()
    }

    /// Puts items behind the others, whose entries `spell_all` gave: an append that finds its memory before. A crash at
    /// any moment of the call leaves the old items or all, and after an `Ok` all. After an `Err` it is shut.
    pub fn put<T: Item>(&mut self, entries: &[Entry<T>], out: &[u8]) -> Result<(), JournalFault>
        requires few { live_size self.old ≤ 2 ^ 62 }
        requires open { is_shut self.old ≡ false }
        requires out { out.now ≡ opened (entry_bytes T.spelled) entries.now ++ 0 ∷ [] }
        ensures moments { (h k : List Moment) (checkpoint behind items : List T) → entries.now ≡ map BehindOf items → D.stands (live_disk self.old) h → D.stands (other_disk self.old) k → Has T.spelled self.old h k checkpoint behind
            → (RanBeside (D.stands (live_disk self.new)) h k (IsEitherPair T.spelled checkpoint behind checkpoint (behind ++ items)) (λ l. OnOk result (Has T.spelled self.new l k checkpoint (behind ++ items)))) × (D.stands (other_disk self.new) k) }
        ensures open { IsOk result → is_shut self.new ≡ false }
        ensures closes { IsErr result → is_shut self.new ≡ true }
        ensures no_shut { IsErrOf result JournalFault.Shut → ⊥ }
        ensures failed { IsErrOf result JournalFault.Disk → HasRisen (D.faults (live_disk self.old)) (D.faults (live_disk self.new)) }
        ensures short { IsErrOf result JournalFault.NoMemory → HasRisen (D.shortages (live_disk self.old)) (D.shortages (live_disk self.new)) }
        ensures honest { D.is_honest (live_disk self.new) → D.is_honest (live_disk self.old) }
        ensures other { other_disk self.new ≡ other_disk self.old }
    {
        self.live.put(entries, out)
    }

    /// Goes on with a checkpoint in the place of all items so far: makes the next generation in the other file, which then
    /// is the live one. A crash at any moment of the call leaves the old checkpoint with the items behind it, or the new
    /// one with none, and after an `Ok` the new. After an `Err` the old is there, or it is shut; the checkpoint is gone.
    pub fn compact<T: Item>(&mut self, checkpoint: Vec<T>) -> Result<(), JournalFault>
        ensures done { OnOk result ((h k : List Moment) (old behind : List T) → is_shut self.old ≡ false → D.stands (live_disk self.old) h → D.stands (other_disk self.old) k → Has T.spelled self.old h k old behind
            → (RanBeside (D.stands (live_disk self.new)) k h (λ y x. IsEitherPair T.spelled old behind checkpoint.items [] x y) (λ m. Has T.spelled self.new m h checkpoint.items [])) × (D.stands (other_disk self.new) h)) }
        ensures kept { OnErr result ((h k : List Moment) (old behind : List T) → is_shut self.old ≡ false → D.stands (live_disk self.old) h → D.stands (other_disk self.old) k → Has T.spelled self.old h k old behind
            → (RanBeside (D.stands (other_disk self.new)) k h (λ y x. IsEitherPair T.spelled old behind checkpoint.items [] x y) (λ m. is_shut self.new ≡ false → Has T.spelled self.new h m old behind)) × (D.stands (live_disk self.new) h)) }
        ensures open { IsOk result → is_shut self.new ≡ false }
        ensures shut { is_shut self.old ≡ true → (result ≡ Err JournalFault.Shut) × (self.new ≡ self.old) }
        ensures only_shut { IsErrOf result JournalFault.Shut → is_shut self.old ≡ true }
        ensures failed { IsErrOf result JournalFault.Disk → HasRisen (D.faults (other_disk self.old)) (D.faults (other_disk self.new)) }
        ensures closes { IsErrOf result JournalFault.Disk → is_shut self.new ≡ true }
        ensures short { IsErrOf result JournalFault.NoMemory → is_shut self.new ≡ true → HasRisen (D.shortages (other_disk self.old)) (D.shortages (other_disk self.new)) }
        ensures same { IsErrOf result JournalFault.NoMemory → is_shut self.new ≡ false → self.new ≡ self.old }
        ensures honest { MatchResult result (λ _. D.is_honest (live_disk self.new) → D.is_honest (other_disk self.old)) (λ _. D.is_honest (other_disk self.new) → D.is_honest (other_disk self.old)) }
        ensures other { MatchResult result (λ _. other_disk self.new ≡ live_disk self.old) (λ _. live_disk self.new ≡ live_disk self.old) }
    {
        if self.is_shut() {
            return Err(JournalFault::Shut);
        }
        let Some(mark) = self.mark.next() else {
            return Err(JournalFault::NoMemory);
        };
        let entries = begun(self.alloc, mark, checkpoint)?;
        self.other.replace(&entries)?;
        mem::swap(&mut self.live, &mut self.other);
        self.mark = mark;
        self.size = self.live.size();
        Ok(())
    }

    /// Whether a call of a disk has failed. It then takes no more items.
    pub fn is_shut(&self) -> bool
        ensures { result ≡ is_shut self.now }
    {
        self.live.is_shut() || self.other.is_shut()
    }

    /// How long its live file is, in bytes.
    pub fn size(&self) -> u64
        ensures { result ≡ live_size self.now }
    {
        self.live.size()
    }

    /// How long it was with its checkpoint alone.
    pub fn checkpoint_size(&self) -> u64
        ensures { result ≡ checkpoint_size self.now }
    {
        self.size
    }

    /// Whether its live file is longer than `FLOOR`, and more than twice as long as it was with its checkpoint alone.
    pub fn is_due(&self) -> bool
        ensures { IsTrue result ↔ ((FLOOR < live_size self.now) × (2 * checkpoint_size self.now < live_size self.now)) }
    {
        let size = self.live.size();
        size > FLOOR && size.saturating_sub(self.size) > self.size
    }

    /// Gives up the pair and keeps its disks, that of its live file first.
    pub fn part(self) -> (D, D)
        ensures live { result.0 ≡ live_disk self }
        ensures other { result.1 ≡ other_disk self }
    {
        (self.live.part(), self.other.part())
    }
}

// A pair goes on with the generation of one of its files.
fn seat<D: Disk, T: Item>(
    alloc: Global,
    a: Journal<D>,
    b: Journal<D>,
    side: Side,
    taken: Taken<T>,
) -> Result<Opened<D, T>, Unopened<D>>
    ensures ok { IfOk result (λ r. (IsSeated side a b taken.mark (size_of T.spelled (generation taken.mark taken.checkpoint.items []) + 1) r.pair) × (r.checkpoint ≡ taken.checkpoint) × (r.behind ≡ taken.behind) × (r.side ≡ side)) }
    ensures err { IfErr result (λ e. (e.why ≡ PairFault.NoMemory) × (e.first ≡ disk_of a) × (e.second ≡ disk_of b)) }
{
    let Taken {
        mark,
        checkpoint,
        behind,
    } = taken;
    match checkpoint_size(alloc, mark, &checkpoint) {
        Ok(size) => Ok(Opened {
            pair: sit(alloc, a, b, side, mark, size),
            side,
            checkpoint,
            behind,
        }),
        Err(_) => Err(Unopened {
            why: PairFault::NoMemory,
            first: a.part(),
            second: b.part(),
        }),
    }
}

// The pair whose live file is that of a side.
fn sit<D: Disk>(
    alloc: Global,
    a: Journal<D>,
    b: Journal<D>,
    side: Side,
    mark: Mark,
    size: u64,
) -> Pair<D>
    ensures { IsSeated side a b mark size result }
{
    match side {
        Side::First => Pair {
            alloc,
            live: a,
            other: b,
            mark,
            size,
        },
        Side::Second => Pair {
            alloc,
            live: b,
            other: a,
            mark,
            size,
        },
    }
}
