// A centre with a journal is asked many asks at once.
ghost use Rattle.std.specs.Prelude.{◌≡◌, ◌<◌, ◌++◌, true, false, List, ℕ, length, take, map, Err, IsOk, IsErrOf, MatchResult, IfOk};
ghost use Rattle.journal_disk.specs.declared.disk.Moment.{Moment};
ghost use Rattle.journal_disk.specs.Disk.{Ran, HasRisen};
ghost use Rattle.dc_talk.specs.Entries.{Entry};
ghost use Rattle.dc_journal.specs.Answered.{said_in, answered, AreSame};
ghost use Rattle.dc_journal.specs.Files.{IsFileAround};

use crate::answering::answer_all;
use crate::journal_centre::JournalCentre;
use dc_talk::{Ask, Say};
use journal_asks::KeptAsk;
use journal_disk::Disk;
use journal_file::JournalFault;

impl<D: Disk> JournalCentre<D> {
    ghost use Rattle.dc_journal.specs.Open.{settings_of, disk_of, is_shut, IsSame, IsJournalOf};

    /// Answers asks in order, and stops before one for which it finds no memory: then the replies are fewer than the asks.
    /// All that are kept stand behind one gate. A crash at any moment of the call leaves the journal of the trail as it was
    /// or with all that were answered, and after an `Ok` the centre stands for the trail with these.
    pub fn ask_all(&mut self, asks: &[Ask]) -> Result<Vec<Say>, JournalFault>
        ensures moments { (count : ℕ) × ((h : List Moment) (trail : List Entry) → is_shut self.old ≡ false → D.stands (disk_of self.old) h → IsJournalOf self.old h trail
            → Ran (D.stands (disk_of self.new)) h (IsFileAround (settings_of self.old) trail (take count asks.now)) (λ later. MatchResult result
            (λ says. (says.items ≡ map said_in (answered (settings_of self.old) trail (take count asks.now))) × ((more : List Entry) → AreSame more (answered (settings_of self.old) trail (take count asks.now)) → IsJournalOf self.new later (trail ++ more)))
            (λ _. is_shut self.new ≡ false → IsJournalOf self.new later trail))) }
        ensures some { IfOk result (λ says. 0 < length asks.now → 0 < length says.items) }
        ensures settings { settings_of self.new ≡ settings_of self.old }
        ensures open { IsOk result → is_shut self.new ≡ false }
        ensures shut { is_shut self.old ≡ true → (result ≡ Err JournalFault.Shut) × (IsSame self.old self.new) }
        ensures only_shut { IsErrOf result JournalFault.Shut → is_shut self.old ≡ true }
        ensures failed { IsErrOf result JournalFault.Disk → HasRisen (D.faults (disk_of self.old)) (D.faults (disk_of self.new)) }
        ensures closes { IsErrOf result JournalFault.Disk → is_shut self.new ≡ true }
        ensures short { IsErrOf result JournalFault.NoMemory → is_shut self.old ≡ false → is_shut self.new ≡ true → HasRisen (D.shortages (disk_of self.old)) (D.shortages (disk_of self.new)) }
        ensures same { IsErrOf result JournalFault.NoMemory → is_shut self.new ≡ false → IsSame self.old self.new }
        ensures honest { D.is_honest (disk_of self.new) → D.is_honest (disk_of self.old) }
    {
        if self.journal.is_shut() {
            return Err(JournalFault::Shut);
        }
        if !self.journal.has_room() {
            return Err(JournalFault::NoMemory);
        }
        let batch = answer_all::<KeptAsk>(self.alloc, self.me, self.n, &mut self.centre, asks)?;
        let mut out = batch.out;
        out.push_reserved(0);
        self.journal.put(&batch.kept, &out)?;
        Ok(batch.says)
    }
}
