// A data centre with a journal.
ghost use Rattle.std.specs.Prelude.{◌≡◌, ◌+◌, ◌≤◌, ◌<◌, ◌^◌, ◌⊎◌, ◌++◌, [], ◌∷◌, true, false, List, ℕ, Err, IsOk, IsErr, IsErrOf, MatchResult, OnOk, IfOk, IfErr};
ghost use Rattle.ids_core.specs.declared.limits.TheConstants.{MOST_CENTRES, MOST_RECORDS};
ghost use Rattle.journal_disk.specs.declared.disk.Moment.{Moment};
ghost use Rattle.journal_disk.specs.Disk.{seen, is_sound, Ran, HasRisen};
ghost use Rattle.journal_file.specs.Faults.{IsBad};
ghost use Rattle.machine_trail.specs.History.{entry};
ghost use Rattle.dc_talk.specs.Entries.{Entry};
ghost use Rattle.dc_talk.specs.Records.{vector};
ghost use Rattle.dc_talk.specs.Trails.{applied};
ghost use Rattle.dc_talk.specs.Answers.{History, answer};
ghost use Rattle.dc_centre.specs.Centre.{StandsFor};
ghost use Rattle.journal_asks.specs.Spellings.{by_of, is_kept_by};
ghost use Rattle.dc_journal.specs.Files.{numbers, IsFileOf, IsFileAround, IsFound, IsBadGate};

use crate::answering::may_keep;
use crate::opening::{is_kept, recover};
use crate::steps::step;
use dc_centre::Centre;
use dc_talk::{Ask, Say};
use journal_asks::KeptAsk;
use journal_disk::Disk;
use journal_file::{Journal, JournalFault, OpenFault, Unopened, spell_all};
use std::alloc::Global;
use vv_core::Vector;

/// A data centre whose journal on a disk has all that may change it. Contracts see its centre, its disk, and whether it is
/// shut. It keeps no trail.
#[derive(Drop)]
pub struct JournalCentre<D: Disk> {
    pub(crate) alloc: Global,
    pub(crate) me: u8,
    pub(crate) n: u8,
    pub(crate) centre: Centre,
    pub(crate) journal: Journal<D>,
    ghost own: { centre.settings.me ≡ me },
    ghost among: { centre.settings.n ≡ n },
    ghost there: { (1 ≤ me) × (me ≤ n) },
    ghost few: { n ≤ MOST_CENTRES },
}

impl<D: Disk> JournalCentre<D> {
    ghost use Rattle.dc_journal.specs.Open.{settings_of, disk_of, end_of, is_shut, IsSame, IsJournalOf};

    /// Centre `me` among `n` with an empty journal on a disk, whatever that held. Updates are stable once `k` centres know
    /// them, and it stamps at most `limit` transactions. Until it answers, nothing is said of what a crash leaves.
    pub fn create(
        alloc: Global,
        me: u8,
        n: u8,
        k: u8,
        limit: u64,
        disk: D,
    ) -> Result<JournalCentre<D>, Unopened<D>>
        requires centre { (1 ≤ me) × (me ≤ n) }
        requires width { n ≤ MOST_CENTRES }
        requires known { (1 ≤ k) × (k ≤ n) }
        requires most { (1 ≤ limit) × (limit ≤ MOST_RECORDS) }
        ensures ok { IfOk result (λ j. (h : List Moment) → D.stands disk h → is_sound h ≡ true → Ran (D.stands (disk_of j)) h (λ _. Unit {0}) (λ later. IsJournalOf j later [])) }
        ensures settings { IfOk result (λ j. settings_of j ≡ numbers me n k limit) }
        ensures open { IfOk result (λ j. is_shut j ≡ false) }
        ensures err { IfErr result (λ e. IsBad e.why → ⊥) }
        ensures failed { IfErr result (λ e. e.why ≡ OpenFault.Disk → HasRisen (D.faults disk) (D.faults e.disk)) }
    {
        let centre = match Centre::new(alloc, me, n, k, limit) {
            Ok(centre) => centre,
            Err(_) => {
                return Err(Unopened {
                    why: OpenFault::NoMemory,
                    disk,
                });
            }
        };
        let journal = Journal::create(alloc, disk)?;
        Ok(JournalCentre {
            alloc,
            me,
            n,
            centre,
            journal,
        })
    }

    /// The centre of the trail whose journal a disk has, on which a call may have been cut short. It is given the numbers
    /// with which the centre was made.
    pub fn open(
        alloc: Global,
        me: u8,
        n: u8,
        k: u8,
        limit: u64,
        disk: D,
    ) -> Result<JournalCentre<D>, Unopened<D>>
        requires centre { (1 ≤ me) × (me ≤ n) }
        requires width { n ≤ MOST_CENTRES }
        requires known { (1 ≤ k) × (k ≤ n) }
        requires most { (1 ≤ limit) × (limit ≤ MOST_RECORDS) }
        ensures ok { IfOk result (λ j. (h : List Moment) (trail : List Entry) → D.is_honest (disk_of j) → D.stands disk h → is_sound h ≡ true
            → History (numbers me n k limit) trail → IsFileOf (numbers me n k limit) trail (seen h)
            → Ran (D.stands (disk_of j)) h (IsFound (numbers me n k limit) trail h) (λ later. IsJournalOf j later trail)) }
        ensures is { IfOk result (λ j. (h : List Moment) → D.is_honest (disk_of j) → D.stands disk h → is_sound h ≡ true
            → (trail : List Entry) × ((History (numbers me n k limit) trail) × (IsFileOf (numbers me n k limit) trail (seen h)))) }
        ensures settings { IfOk result (λ j. settings_of j ≡ numbers me n k limit) }
        ensures open { IfOk result (λ j. is_shut j ≡ false) }
        ensures err { IfErr result (λ e. (h : List Moment) (trail : List Entry) → D.is_honest e.disk → D.stands disk h → is_sound h ≡ true
            → History (numbers me n k limit) trail → IsFileOf (numbers me n k limit) trail (seen h)
            → Ran (D.stands e.disk) h (IsFound (numbers me n k limit) trail h) (λ _. IsBad e.why → ⊥)) }
        ensures place { IfErr result (λ e. (h : List Moment) (place : ℕ) → e.why ≡ OpenFault.Bad place → D.is_honest e.disk → D.stands disk h → is_sound h ≡ true → IsBadGate (numbers me n k limit) place (seen h)) }
        ensures failed { IfErr result (λ e. e.why ≡ OpenFault.Disk → HasRisen (D.faults disk) (D.faults e.disk)) }
    {
        let mut disk = disk;
        match recover(alloc, me, n, k, limit, &mut disk) {
            Ok((centre, end)) => match Journal::resume::<KeptAsk>(alloc, disk, end) {
                Ok(journal) => Ok(JournalCentre {
                    alloc,
                    me,
                    n,
                    centre,
                    journal,
                }),
                Err(unopened) => Err(unopened),
            },
            Err(why) => Err(Unopened { why, disk }),
        }
    }

    /// Answers an ask. A crash at any moment of the call leaves the journal of the trail as it was or with this ask, and
    /// after an `Ok` the centre stands for the trail with it.
    pub fn ask(&mut self, ask: &Ask) -> Result<Say, JournalFault>
        ensures moments { (h : List Moment) (trail : List Entry) → is_shut self.old ≡ false → D.stands (disk_of self.old) h → IsJournalOf self.old h trail
            → Ran (D.stands (disk_of self.new)) h (IsFileAround (settings_of self.old) trail (ask.now ∷ [])) (λ later. MatchResult result
            (λ say. (say ≡ answer (settings_of self.old) trail ask.now) × ((caller : ℕ) → IsJournalOf self.new later (trail ++ entry caller ask.now say ∷ [])))
            (λ _. is_shut self.new ≡ false → IsJournalOf self.new later trail)) }
        ensures settings { settings_of self.new ≡ settings_of self.old }
        ensures open { IsOk result → is_shut self.new ≡ false }
        ensures shut { is_shut self.old ≡ true → (result ≡ Err JournalFault.Shut) × (IsSame self.old self.new) }
        ensures only_shut { IsErrOf result JournalFault.Shut → is_shut self.old ≡ true }
        ensures failed { IsErrOf result JournalFault.Disk → HasRisen (D.faults (disk_of self.old)) (D.faults (disk_of self.new)) }
        ensures closes { IsErrOf result JournalFault.Disk → is_shut self.new ≡ true }
        ensures short { IsErrOf result JournalFault.NoMemory → is_shut self.old ≡ false → is_shut self.new ≡ true → HasRisen (D.shortages (disk_of self.old)) (D.shortages (disk_of self.new)) }
        ensures same { IsErrOf result JournalFault.NoMemory → is_shut self.new ≡ false → IsSame self.old self.new }
        ensures honest { D.is_honest (disk_of self.new) → D.is_honest (disk_of self.old) }
    {
        if self.journal.is_shut() {
            return Err(JournalFault::Shut);
        }
        if !may_keep(self.n, ask) {
            return self.answer(ask);
        }
        let item = KeptAsk::of(self.me, self.n, ask)?;
        self.keep(ask, item)
    }

    /// How many records of each centre it has, over every trail that it stands for. It takes no memory.
    pub fn vector(&self) -> Vector
        ensures { (h : List Moment) (trail : List Entry) → IsJournalOf self.now h trail → result ≡ vector (settings_of self.now).n (applied (settings_of self.now).n trail) }
    {
        self.centre.vector()
    }

    /// How long its file is, in bytes.
    pub fn size(&self) -> u64
        ensures { result ≡ end_of self.now + 1 }
    {
        self.journal.size()
    }

    /// Whether a call of the disk has failed. It then takes no more asks.
    pub fn is_shut(&self) -> bool
        ensures { result ≡ is_shut self.now }
    {
        self.journal.is_shut()
    }

    /// Gives up the centre and keeps its disk.
    pub fn part(self) -> D
        ensures { result ≡ disk_of self }
    {
        self.journal.part()
    }

    // Answers an ask that no journal keeps.
    fn answer(&mut self, ask: &Ask) -> Result<Say, JournalFault>
        requires { is_kept_by (settings_of self.old) ask.now ≡ false }
        ensures journal { self.new.journal ≡ self.old.journal }
        ensures settings { settings_of self.new ≡ settings_of self.old }
        ensures answer { IfOk result (λ say. (trail : List Entry) → StandsFor self.old.centre trail → say ≡ answer (settings_of self.old) trail ask.now) }
        ensures stands { IfOk result (λ say. (trail : List Entry) (caller : ℕ) → StandsFor self.old.centre trail → StandsFor self.new.centre (trail ++ entry caller ask.now say ∷ [])) }
        ensures err { IfErr result (λ e. (e ≡ JournalFault.NoMemory) × (IsSame self.old self.new)) }
    {
        let say = step(self.alloc, &mut self.centre, ask)?;
        Ok(say)
    }

    // Answers an ask, and puts it in the journal where its reply is kept. Its bytes are there before the centre takes it.
    fn keep(&mut self, ask: &Ask, item: KeptAsk) -> Result<Say, JournalFault>
        requires open { is_shut self.old ≡ false }
        requires by { item.by ≡ by_of (settings_of self.old).me ask.now }
        requires ask { item.ask ≡ ask.now }
        ensures moments { (h : List Moment) (trail : List Entry) → D.stands (disk_of self.old) h → IsJournalOf self.old h trail
            → Ran (D.stands (disk_of self.new)) h (IsFileAround (settings_of self.old) trail (ask.now ∷ [])) (λ later. MatchResult result
            (λ say. (say ≡ answer (settings_of self.old) trail ask.now) × ((caller : ℕ) → IsJournalOf self.new later (trail ++ entry caller ask.now say ∷ [])))
            (λ _. is_shut self.new ≡ false → IsJournalOf self.new later trail)) }
        ensures settings { settings_of self.new ≡ settings_of self.old }
        ensures open { IsOk result → is_shut self.new ≡ false }
        ensures no_shut { IsErrOf result JournalFault.Shut → ⊥ }
        ensures failed { IsErrOf result JournalFault.Disk → HasRisen (D.faults (disk_of self.old)) (D.faults (disk_of self.new)) }
        ensures closes { IsErrOf result JournalFault.Disk → is_shut self.new ≡ true }
        ensures short { IsErrOf result JournalFault.NoMemory → is_shut self.new ≡ true → HasRisen (D.shortages (disk_of self.old)) (D.shortages (disk_of self.new)) }
        ensures same { IsErrOf result JournalFault.NoMemory → is_shut self.new ≡ false → IsSame self.old self.new }
        ensures honest { D.is_honest (disk_of self.new) → D.is_honest (disk_of self.old) }
    {
        if !self.journal.has_room() {
            return Err(JournalFault::NoMemory);
        }
        let items = [item];
        let out = spell_all(self.alloc, &items)?;
        let say = step(self.alloc, &mut self.centre, ask)?;
        if !is_kept(&say) {
            return Ok(say);
        }
        self.journal.put(&items, &out)?;
        Ok(say)
    }
}
