// A centre with its journal in two files is asked.
ghost use Rattle.std.specs.Prelude.{◌≡◌, ◌<◌, ◌++◌, [], ◌∷◌, true, false, List, ℕ, length, take, map, Err, IsOk, IsErrOf, MatchResult, IfOk};
ghost use Rattle.journal_disk.specs.declared.disk.Moment.{Moment};
ghost use Rattle.journal_disk.specs.Disk.{HasRisen};
ghost use Rattle.journal_pair.specs.Files.{RanBeside};
ghost use Rattle.machine_trail.specs.History.{entry};
ghost use Rattle.dc_talk.specs.Answers.{answer};
ghost use Rattle.dc_talk.specs.declared.say.Say.{Say as SayOf};
ghost use Rattle.dc_talk.specs.Entries.{Entry as EntryOf};
ghost use Rattle.dc_journal.specs.Answered.{said_in, answered, AreSame};
ghost use Rattle.pair_centre.specs.States.{IsPairFileAround};

use crate::item::PairItem;
use crate::pair_centre::PairCentre;
use dc_journal::answer_all;
use dc_talk::{Ask, Say};
use journal_disk::Disk;
use journal_file::JournalFault;
use journal_pair::Entry;
use std::slice;

impl<D: Disk> PairCentre<D> {
    ghost use Rattle.pair_centre.specs.Open.{settings_of, live_disk, other_disk, is_shut, IsSame, IsPairOf};

    /// Answers asks in order, and stops before one for which it finds no memory: then the replies are fewer than the asks.
    /// All that are kept stand behind one gate of its live file. A crash at any moment of the call leaves the files of the
    /// trail as it was or with all that were answered, and after an `Ok` the centre stands for the trail with these.
    pub fn ask_all(&mut self, asks: &[Ask]) -> Result<Vec<Say>, JournalFault>
        ensures moments { (count : ℕ) × ((h k : List Moment) (trail : List EntryOf) → is_shut self.old ≡ false → D.stands (live_disk self.old) h → D.stands (other_disk self.old) k → IsPairOf self.old h k trail
            → (RanBeside (D.stands (live_disk self.new)) h k (IsPairFileAround (settings_of self.old) trail (take count asks.now)) (λ later. MatchResult result
            (λ says. (says.items ≡ map said_in (answered (settings_of self.old) trail (take count asks.now))) × ((more : List EntryOf) → AreSame more (answered (settings_of self.old) trail (take count asks.now)) → IsPairOf self.new later k (trail ++ more)))
            (λ _. is_shut self.new ≡ false → IsPairOf self.new later k trail))) × (D.stands (other_disk self.new) k)) }
        ensures some { IfOk result (λ says. 0 < length asks.now → 0 < length says.items) }
        ensures settings { settings_of self.new ≡ settings_of self.old }
        ensures open { IsOk result → is_shut self.new ≡ false }
        ensures shut { is_shut self.old ≡ true → (result ≡ Err JournalFault.Shut) × (IsSame self.old self.new) }
        ensures only_shut { IsErrOf result JournalFault.Shut → is_shut self.old ≡ true }
        ensures failed { IsErrOf result JournalFault.Disk → HasRisen (D.faults (live_disk self.old)) (D.faults (live_disk self.new)) }
        ensures closes { IsErrOf result JournalFault.Disk → is_shut self.new ≡ true }
        ensures short { IsErrOf result JournalFault.NoMemory → is_shut self.old ≡ false → is_shut self.new ≡ true → HasRisen (D.shortages (live_disk self.old)) (D.shortages (live_disk self.new)) }
        ensures same { IsErrOf result JournalFault.NoMemory → is_shut self.new ≡ false → IsSame self.old self.new }
        ensures honest { D.is_honest (live_disk self.new) → D.is_honest (live_disk self.old) }
        ensures other { other_disk self.new ≡ other_disk self.old }
    {
        if self.pair.is_shut() {
            return Err(JournalFault::Shut);
        }
        if !self.pair.has_room() {
            return Err(JournalFault::NoMemory);
        }
        let batch = answer_all::<Entry<PairItem>>(
            self.alloc,
            self.me,
            self.n,
            &mut self.centre,
            asks,
        )?;
        let mut out = batch.out;
        out.push_reserved(0);
        self.pair.put(&batch.kept, &out)?;
        Ok(batch.says)
    }

    /// Answers an ask. A crash at any moment of the call leaves the files of the trail as it was or with this ask, and
    /// after an `Ok` the centre stands for the trail with it.
    pub fn ask(&mut self, ask: &Ask) -> Result<Say, JournalFault>
        ensures moments { (h k : List Moment) (trail : List EntryOf) → is_shut self.old ≡ false → D.stands (live_disk self.old) h → D.stands (other_disk self.old) k → IsPairOf self.old h k trail
            → (RanBeside (D.stands (live_disk self.new)) h k (IsPairFileAround (settings_of self.old) trail (ask.now ∷ [])) (λ later. MatchResult result
            (λ say. (say ≡ answer (settings_of self.old) trail ask.now) × ((caller : ℕ) → IsPairOf self.new later k (trail ++ entry caller ask.now say ∷ [])))
            (λ _. is_shut self.new ≡ false → IsPairOf self.new later k trail))) × (D.stands (other_disk self.new) k) }
        ensures settings { settings_of self.new ≡ settings_of self.old }
        ensures open { IsOk result → is_shut self.new ≡ false }
        ensures shut { is_shut self.old ≡ true → (result ≡ Err JournalFault.Shut) × (IsSame self.old self.new) }
        ensures only_shut { IsErrOf result JournalFault.Shut → is_shut self.old ≡ true }
        ensures failed { IsErrOf result JournalFault.Disk → HasRisen (D.faults (live_disk self.old)) (D.faults (live_disk self.new)) }
        ensures closes { IsErrOf result JournalFault.Disk → is_shut self.new ≡ true }
        ensures short { IsErrOf result JournalFault.NoMemory → is_shut self.old ≡ false → is_shut self.new ≡ true → HasRisen (D.shortages (live_disk self.old)) (D.shortages (live_disk self.new)) }
        ensures same { IsErrOf result JournalFault.NoMemory → is_shut self.new ≡ false → IsSame self.old self.new }
        ensures honest { D.is_honest (live_disk self.new) → D.is_honest (live_disk self.old) }
        ensures other { other_disk self.new ≡ other_disk self.old }
    {
        let says = self.ask_all(slice::from_ref(ask))?;
        Ok(only(says))
    }
}

// The only one of some replies.
fn only(says: Vec<Say>) -> Say
    requires { 0 < length says.items }
    ensures { (say : SayOf) → says.items ≡ say ∷ [] → result ≡ say }
{
    let mut says = says;
    match says.pop() {
        Some(say) => say,
        None => unreachable!(),
    }
}
