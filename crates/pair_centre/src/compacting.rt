// A checkpoint takes the place of all asks so far.
ghost use Rattle.std.specs.Prelude.{◌≡◌, ◌<◌, ◌*◌, ◌↔◌, true, false, List, Ok, Err, IfOk, IsOk, IsErrOf, IsTrue, OnErr};
ghost use Rattle.journal_disk.specs.declared.disk.Moment.{Moment};
ghost use Rattle.journal_disk.specs.Disk.{HasRisen};
ghost use Rattle.journal_pair.specs.declared.pair.TheConstants.{FLOOR};
ghost use Rattle.journal_pair.specs.Files.{RanBeside};
ghost use Rattle.dc_talk.specs.Answers.{History};
ghost use Rattle.dc_talk.specs.Entries.{Entry};
ghost use Rattle.centre_parts.specs.declared.part.CentreParts.{CentreParts as PartsOf};
ghost use Rattle.centre_parts.specs.Conditions.{MeetsAll};
ghost use Rattle.dc_centre.specs.Centre.{StandsFor};
ghost use Rattle.dc_centre.specs.Parts.{ArePartsOf};
ghost use Rattle.parts_codec.specs.Plain.{plain_centre, AreOfKind};
ghost use Rattle.parts_codec.specs.Spelling.{IsSpelledCentre};
ghost use Rattle.parts_frames.specs.Far.{HasFarRecord};
ghost use Rattle.pair_centre.specs.States.{IsPairFileOf, IsCheckpointOf};
ghost use Rattle.pair_centre.specs.declared.compacting.Compacted.TheVariants.{Done, Unfit};

use crate::item::PairItem;
use crate::pair_centre::PairCentre;
use dc_centre::Centre;
use journal_disk::Disk;
use journal_file::JournalFault;
use parts_codec::{PartsItem, PlainCentre};
use parts_frames::see_centre;
use state_codec::{NotMade, NotPut};
use std::alloc::Global;

// The checkpoint of what a centre keeps. It is `Unfit` only where the parts of the centre have no bytes, or a state of
// another kind than its object. Where the centre stands for a history, that has a record with too many hops.
fn checkpoint_of(alloc: Global, centre: &Centre) -> Result<Vec<PairItem>, NotPut>
    ensures made { IfOk result (λ checkpoint. (trail : List Entry) → StandsFor centre.now trail → IsCheckpointOf centre.now.settings trail checkpoint.items) }
    ensures unfit { IsErrOf result NotPut.Unfit → (parts : PartsOf) → MeetsAll parts → ArePartsOf centre.now parts → AreOfKind parts → IsSpelledCentre (plain_centre parts) → ⊥ }
    ensures unfit_by { IsErrOf result NotPut.Unfit → (trail : List Entry) → History centre.now.settings trail → StandsFor centre.now trail → HasFarRecord centre.now.settings trail }
{
    let Ok(parts) = centre.parts(alloc) else {
        return Err(NotPut::NoMemory);
    };
    let plain = match PlainCentre::of(alloc, parts) {
        Ok(plain) => plain,
        Err(NotMade::Unfit) => return Err(NotPut::Unfit),
        Err(NotMade::NoMemory) => return Err(NotPut::NoMemory),
    };
    see_centre(&plain);
    let item = match PartsItem::of(plain) {
        Ok(item) => item,
        Err(fault) => return Err(fault),
    };
    match Vec::from_array(alloc, [PairItem::Parts(item)]) {
        Ok(checkpoint) => Ok(checkpoint),
        Err(_) => Err(NotPut::NoMemory),
    }
}

/// Whether a checkpoint was made.
#[derive(Clone, Copy, Debug, PartialEq, Eq)]
pub enum Compacted {
    /// It stands in the place of all asks so far.
    Done,
    /// What the centre keeps has no bytes. All is as before.
    Unfit,
}

impl<D: Disk> PairCentre<D> {
    ghost use Rattle.pair_centre.specs.Open.{centre_of, settings_of, live_disk, other_disk, live_size, checkpoint_size, is_shut, IsSame, IsPairOf};

    /// Whether its live file is longer than `journal_pair::FLOOR`, and more than twice as long as it was with its
    /// checkpoint alone. Then it is time to compact it.
    pub fn is_due(&self) -> bool
        ensures { IsTrue result ↔ ((FLOOR < live_size self.now) × (2 * checkpoint_size self.now < live_size self.now)) }
    {
        self.pair.is_due()
    }

    /// Makes a checkpoint of what the centre keeps in the other file, which then is the live one and has nothing else.
    /// A crash at any moment of the call leaves the files of the same trail, and so does an `Err` that did not shut it.
    /// It is `Unfit` only where the parts of the centre have no bytes, or a state of another kind than its object:
    /// where it has a record with more hops than a delivery may have.
    pub fn compact(&mut self) -> Result<Compacted, JournalFault>
        ensures done { result ≡ Ok Done → (h k : List Moment) (trail : List Entry) → D.stands (live_disk self.old) h → D.stands (other_disk self.old) k → IsPairOf self.old h k trail
            → (RanBeside (D.stands (live_disk self.new)) k h (IsPairFileOf (settings_of self.old) trail) (λ later. IsPairOf self.new later h trail)) × (D.stands (other_disk self.new) h) }
        ensures small { result ≡ Ok Done → (h k : List Moment) (trail : List Entry) → D.stands (live_disk self.old) h → D.stands (other_disk self.old) k → IsPairOf self.old h k trail → live_size self.new ≡ checkpoint_size self.new }
        ensures unfit { result ≡ Ok Unfit → IsSame self.old self.new }
        ensures cause { result ≡ Ok Unfit → (parts : PartsOf) → MeetsAll parts → ArePartsOf (centre_of self.old) parts → AreOfKind parts → IsSpelledCentre (plain_centre parts) → ⊥ }
        ensures unfit_by { result ≡ Ok Unfit → (h k : List Moment) (trail : List Entry) → D.stands (live_disk self.old) h → D.stands (other_disk self.old) k → IsPairOf self.old h k trail → HasFarRecord (settings_of self.old) trail }
        ensures kept { OnErr result ((h k : List Moment) (trail : List Entry) → is_shut self.old ≡ false → D.stands (live_disk self.old) h → D.stands (other_disk self.old) k → IsPairOf self.old h k trail
            → (RanBeside (D.stands (other_disk self.new)) k h (IsPairFileOf (settings_of self.old) trail) (λ later. is_shut self.new ≡ false → IsPairOf self.new h later trail)) × (D.stands (live_disk self.new) h)) }
        ensures settings { settings_of self.new ≡ settings_of self.old }
        ensures open { IsOk result → is_shut self.new ≡ false }
        ensures shut { is_shut self.old ≡ true → (result ≡ Err JournalFault.Shut) × (IsSame self.old self.new) }
        ensures only_shut { IsErrOf result JournalFault.Shut → is_shut self.old ≡ true }
        ensures failed { IsErrOf result JournalFault.Disk → HasRisen (D.faults (other_disk self.old)) (D.faults (other_disk self.new)) }
        ensures closes { IsErrOf result JournalFault.Disk → is_shut self.new ≡ true }
        ensures short { IsErrOf result JournalFault.NoMemory → is_shut self.old ≡ false → is_shut self.new ≡ true → HasRisen (D.shortages (other_disk self.old)) (D.shortages (other_disk self.new)) }
        ensures same { IsErrOf result JournalFault.NoMemory → is_shut self.new ≡ false → IsSame self.old self.new }
        ensures honest { result ≡ Ok Done → D.is_honest (live_disk self.new) → D.is_honest (other_disk self.old) }
        ensures honest_still { OnErr result (D.is_honest (other_disk self.new) → D.is_honest (other_disk self.old)) }
        ensures swapped { result ≡ Ok Done → other_disk self.new ≡ live_disk self.old }
        ensures live { OnErr result (live_disk self.new ≡ live_disk self.old) }
    {
        if self.pair.is_shut() {
            return Err(JournalFault::Shut);
        }
        match checkpoint_of(self.alloc, &self.centre) {
            Ok(checkpoint) => match self.pair.compact(checkpoint) {
                Ok(()) => Ok(Compacted::Done),
                Err(fault) => Err(fault),
            },
            Err(NotPut::Unfit) => Ok(Compacted::Unfit),
            Err(NotPut::NoMemory) => Err(JournalFault::NoMemory),
        }
    }
}
