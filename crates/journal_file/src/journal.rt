// A journal that is open for more items.
ghost use Rattle.std.specs.Prelude.{◌≡◌, ◌+◌, ◌<◌, ◌≤◌, ◌^◌, ◌⊎◌, ◌++◌, [], ◌∷◌, true, false, List, ℕ, length, Err, IsOk, IsErr, IsErrOf, IsTrue, ◌↔◌, MatchResult, OnOk, IfOk, IfErr};
ghost use Rattle.journal_disk.specs.declared.disk.Moment.{Moment};
ghost use Rattle.journal_disk.specs.Disk.{seen, is_sound, IsSettled, Ran, HasRisen};
ghost use Rattle.journal_file.specs.Journal.{IsAt, IsEither, FileOf, IsBadAt, EndsAt, Found, opened};
ghost use Rattle.journal_file.specs.Faults.{append_fault, IsBad};

use crate::append::{publish, spell_all, wipe};
use crate::opening::{begin, recover};
use crate::{Item, JournalFault, OpenFault};
use journal_disk::{Disk, DiskFault, shorten};
use std::alloc::Global;

/// A journal that is open for more items. Contracts see its disk, the place of the closed gate at which its file ends,
/// and whether it is shut. After a call in which the disk failed it is shut, and has to be opened anew.
#[derive(Drop)]
pub struct Journal<D: Disk> {
    alloc: Global,
    disk: D,
    end: u64,
    shut: bool,
    ghost few: { end + 1 < 2 ^ 64 },
}

/// A disk on which no journal was made or opened, and why.
#[derive(Drop)]
pub struct Unopened<D: Disk> {
    pub why: OpenFault,
    pub disk: D,
}

// A gate that closes a journal stands before 2^62 where something is to be put behind it.
const MOST: u64 = (1 << 62) - 1;

impl<D: Disk> Journal<D> {
    ghost use Rattle.journal_file.specs.Open.{disk_of, end_of, is_shut};

    /// Makes an empty journal on a disk, whatever it held. Until it answers, nothing is said of what a crash leaves.
    pub fn create(alloc: Global, disk: D) -> Result<Journal<D>, Unopened<D>>
        ensures ok { IfOk result (λ journal. (h : List Moment) → D.stands disk h → is_sound h ≡ true → Ran (D.stands (disk_of journal)) h (λ _. Unit {0}) (λ later. (IsSettled later) × (seen later ≡ 0 ∷ []))) }
        ensures end { IfOk result (λ journal. end_of journal ≡ 0) }
        ensures open { IfOk result (λ journal. is_shut journal ≡ false) }
        ensures err { IfErr result (λ e. IsBad e.why → ⊥) }
        ensures failed { IfErr result (λ e. e.why ≡ OpenFault.Disk → HasRisen (D.faults disk) (D.faults e.disk)) }
    {
        let mut disk = disk;
        match begin(&mut disk) {
            Ok(()) => Ok(Journal {
                alloc,
                disk,
                end: 0,
                shut: false,
            }),
            Err(fault) => Err(Unopened {
                why: fault.into(),
                disk,
            }),
        }
    }

    /// Opens the journal of a disk on which a call may have been cut short, and reads its items.
    pub fn open<T: Item>(alloc: Global, disk: D) -> Result<(Journal<D>, Vec<T>), Unopened<D>>
        ensures ok { IfOk result (λ r. (h : List Moment) (xs : List T) → D.is_honest (disk_of r.0) → D.stands disk h → is_sound h ≡ true → FileOf T.spelled xs (seen h)
            → Ran (D.stands (disk_of r.0)) h (Found T.spelled xs h) (λ later. (IsAt T.spelled (end_of r.0) later xs) × (r.1.items ≡ xs))) }
        ensures is { IfOk result (λ r. (h : List Moment) → D.is_honest (disk_of r.0) → D.stands disk h → is_sound h ≡ true → FileOf T.spelled r.1.items (seen h)) }
        ensures open { IfOk result (λ r. is_shut r.0 ≡ false) }
        ensures err { IfErr result (λ e. (h : List Moment) (xs : List T) → D.is_honest e.disk → D.stands disk h → is_sound h ≡ true → FileOf T.spelled xs (seen h)
            → Ran (D.stands e.disk) h (Found T.spelled xs h) (λ _. IsBad e.why → ⊥)) }
        ensures place { IfErr result (λ e. (h : List Moment) (place : ℕ) → e.why ≡ OpenFault.Bad place → D.is_honest e.disk → D.stands disk h → is_sound h ≡ true → IsBadAt T.spelled place (seen h)) }
        ensures failed { IfErr result (λ e. e.why ≡ OpenFault.Disk → HasRisen (D.faults disk) (D.faults e.disk)) }
    {
        let mut disk = disk;
        match recover::<D, T>(alloc, &mut disk) {
            Ok((end, items)) => Ok((
                Journal {
                    alloc,
                    disk,
                    end,
                    shut: false,
                },
                items,
            )),
            Err(why) => Err(Unopened { why, disk }),
        }
    }

    /// Goes on with the journal of a settled disk whose items end at a closed gate at this place, and cuts the file behind
    /// that gate. A crash at any moment of the call leaves a file of these items.
    pub fn resume<T: Item>(alloc: Global, disk: D, end: u64) -> Result<Journal<D>, Unopened<D>>
        requires { end + 1 < 2 ^ 64 }
        ensures ok { IfOk result (λ journal. (h : List Moment) (xs : List T) → D.stands disk h → IsSettled h → EndsAt T.spelled xs end (seen h) → Ran (D.stands (disk_of journal)) h (FileOf T.spelled xs) (λ later. IsAt T.spelled end later xs)) }
        ensures end { IfOk result (λ journal. end_of journal ≡ end) }
        ensures open { IfOk result (λ journal. is_shut journal ≡ false) }
        ensures err { IfErr result (λ e. (h : List Moment) (xs : List T) → D.stands disk h → IsSettled h → EndsAt T.spelled xs end (seen h) → Ran (D.stands e.disk) h (FileOf T.spelled xs) (λ _. Unit {0})) }
        ensures not_bad { IfErr result (λ e. IsBad e.why → ⊥) }
        ensures failed { IfErr result (λ e. e.why ≡ OpenFault.Disk → HasRisen (D.faults disk) (D.faults e.disk)) }
        ensures honest { MatchResult result (λ journal. D.is_honest (disk_of journal) → D.is_honest disk) (λ e. D.is_honest e.disk → D.is_honest disk) }
    {
        let mut disk = disk;
        match shorten(&mut disk, end + 1) {
            Ok(()) => Ok(Journal {
                alloc,
                disk,
                end,
                shut: false,
            }),
            Err(fault) => Err(Unopened {
                why: fault.into(),
                disk,
            }),
        }
    }

    /// Puts items behind the others, all behind one gate. A crash at any moment of the call leaves the old items or all,
    /// and after an `Ok` all. After an `Err` the old ones are there, or it is shut.
    pub fn append<T: Item>(&mut self, items: &[T]) -> Result<(), JournalFault>
        ensures moments { (h : List Moment) (xs : List T) → is_shut self.old ≡ false → D.stands (disk_of self.old) h → IsAt T.spelled (end_of self.old) h xs
            → Ran (D.stands (disk_of self.new)) h (IsEither T.spelled xs (xs ++ items.now)) (λ later. MatchResult result (λ _. IsAt T.spelled (end_of self.new) later (xs ++ items.now)) (λ _. is_shut self.new ≡ false → IsAt T.spelled (end_of self.new) later xs)) }
        ensures open { IsOk result → is_shut self.new ≡ false }
        ensures shut { is_shut self.old ≡ true → (result ≡ Err JournalFault.Shut) × (self.new ≡ self.old) }
        ensures only_shut { IsErrOf result JournalFault.Shut → is_shut self.old ≡ true }
        ensures failed { IsErrOf result JournalFault.Disk → HasRisen (D.faults (disk_of self.old)) (D.faults (disk_of self.new)) }
        ensures closes { IsErrOf result JournalFault.Disk → is_shut self.new ≡ true }
        ensures short { IsErrOf result JournalFault.NoMemory → is_shut self.old ≡ false → is_shut self.new ≡ true → HasRisen (D.shortages (disk_of self.old)) (D.shortages (disk_of self.new)) }
        ensures same { IsErrOf result JournalFault.NoMemory → is_shut self.new ≡ false → self.new ≡ self.old }
        ensures honest { D.is_honest (disk_of self.new) → D.is_honest (disk_of self.old) }
    {
        if self.shut {
            return Err(JournalFault::Shut);
        }
        if self.end > MOST {
            return Err(JournalFault::NoMemory);
        }
        let out = spell_all(self.alloc, items)?;
        self.put(items, &out)
    }

    /// Puts items in the place of the others. A crash at any moment of the call leaves the old items, none or the new,
    /// and after an `Ok` the new. After an `Err` the old ones are there, or it is shut.
    pub fn replace<T: Item>(&mut self, items: &[T]) -> Result<(), JournalFault>
        ensures moments { (h : List Moment) (xs : List T) → is_shut self.old ≡ false → D.stands (disk_of self.old) h → IsAt T.spelled (end_of self.old) h xs
            → Ran (D.stands (disk_of self.new)) h (λ file. (FileOf T.spelled xs file) ⊎ (IsEither T.spelled [] items.now file)) (λ later. MatchResult result (λ _. IsAt T.spelled (end_of self.new) later items.now) (λ _. is_shut self.new ≡ false → IsAt T.spelled (end_of self.new) later xs)) }
        ensures open { IsOk result → is_shut self.new ≡ false }
        ensures shut { is_shut self.old ≡ true → (result ≡ Err JournalFault.Shut) × (self.new ≡ self.old) }
        ensures only_shut { IsErrOf result JournalFault.Shut → is_shut self.old ≡ true }
        ensures failed { IsErrOf result JournalFault.Disk → HasRisen (D.faults (disk_of self.old)) (D.faults (disk_of self.new)) }
        ensures closes { IsErrOf result JournalFault.Disk → is_shut self.new ≡ true }
        ensures short { IsErrOf result JournalFault.NoMemory → is_shut self.old ≡ false → is_shut self.new ≡ true → HasRisen (D.shortages (disk_of self.old)) (D.shortages (disk_of self.new)) }
        ensures same { IsErrOf result JournalFault.NoMemory → is_shut self.new ≡ false → self.new ≡ self.old }
        ensures honest { D.is_honest (disk_of self.new) → D.is_honest (disk_of self.old) }
    {
        if self.end == 0 {
            return self.append(items);
        }
        if self.shut {
            return Err(JournalFault::Shut);
        }
        let out = spell_all(self.alloc, items)?;
        match wipe(&mut self.disk) {
            Ok(()) => {
                self.end = 0;
                self.put(items, &out)
            }
            Err(fault) => Err(self.close(fault)),
        }
    }

    /// How long its file is, in bytes.
    pub fn size(&self) -> u64
        ensures { result ≡ end_of self.now + 1 }
    {
        self.end + 1
    }

    /// Whether a call of the disk has failed. It then takes no more items.
    pub fn is_shut(&self) -> bool
        ensures { result ≡ is_shut self.now }
    {
        self.shut
    }

    /// Gives up the journal and keeps its disk.
    pub fn part(self) -> D
        ensures { result ≡ disk_of self }
    {
        self.disk
    }

    /// Whether the closed gate stands before 2^62, so that items can be put behind it.
    pub fn has_room(&self) -> bool
        ensures { IsTrue result ↔ (end_of self.now < 2 ^ 62) }
    {
        self.end <= MOST
    }

    /// Puts items behind the others, whose entries `spell_all` gave: an append that finds its memory before. A crash at
    /// any moment of the call leaves the old items or all, and after an `Ok` all. After an `Err` it is shut.
    pub fn put<T: Item>(&mut self, items: &[T], out: &[u8]) -> Result<(), JournalFault>
        requires few { end_of self.old < 2 ^ 62 }
        requires open { is_shut self.old ≡ false }
        requires out { out.now ≡ opened T.spelled items.now ++ 0 ∷ [] }
        ensures moments { (h : List Moment) (xs : List T) → D.stands (disk_of self.old) h → IsAt T.spelled (end_of self.old) h xs
            → Ran (D.stands (disk_of self.new)) h (IsEither T.spelled xs (xs ++ items.now)) (λ later. OnOk result (IsAt T.spelled (end_of self.new) later (xs ++ items.now))) }
        ensures open { IsOk result → is_shut self.new ≡ false }
        ensures closes { IsErr result → is_shut self.new ≡ true }
        ensures no_shut { IsErrOf result JournalFault.Shut → ⊥ }
        ensures failed { IsErrOf result JournalFault.Disk → HasRisen (D.faults (disk_of self.old)) (D.faults (disk_of self.new)) }
        ensures short { IsErrOf result JournalFault.NoMemory → HasRisen (D.shortages (disk_of self.old)) (D.shortages (disk_of self.new)) }
        ensures honest { D.is_honest (disk_of self.new) → D.is_honest (disk_of self.old) }
    {
        if items.is_empty() {
            return Ok(());
        }
        match publish(&mut self.disk, self.end, out) {
            Ok(()) => {
                self.end += out.len() as u64 - 1;
                Ok(())
            }
            Err(fault) => Err(self.close(fault)),
        }
    }

    // Shuts the journal after a fault.
    fn close(&mut self, fault: DiskFault) -> JournalFault
        ensures disk { self.new.disk ≡ self.old.disk }
        ensures shut { self.new.shut ≡ true }
        ensures fault { result ≡ append_fault fault }
    {
        self.shut = true;
        fault.into()
    }
}
