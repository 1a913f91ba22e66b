// A data centre with its journal in two files.
ghost use Rattle.std.specs.Prelude.{◌≡◌, ◌≤◌, true, false, List, [], IfOk, IfErr};
ghost use Rattle.ids_core.specs.declared.limits.TheConstants.{MOST_CENTRES, MOST_RECORDS};
ghost use Rattle.journal_disk.specs.declared.disk.Moment.{Moment};
ghost use Rattle.journal_disk.specs.Disk.{is_sound, HasRisen};
ghost use Rattle.journal_file.specs.declared.faults.OpenFault.TheVariants.{Disk as FileDisk};
ghost use Rattle.journal_pair.specs.declared.faults.PairFault.TheVariants.{File};
ghost use Rattle.journal_pair.specs.declared.faults.Side.TheVariants.{First, Second};
ghost use Rattle.journal_pair.specs.Files.{RanBoth};
ghost use Rattle.dc_talk.specs.Entries.{Entry};
ghost use Rattle.dc_talk.specs.Records.{vector};
ghost use Rattle.dc_talk.specs.Trails.{applied};
ghost use Rattle.dc_journal.specs.Files.{numbers};
ghost use Rattle.pair_centre.specs.declared.faults.CentreFault.TheVariants.{Pair as OfPair};
ghost use Rattle.pair_centre.specs.Faults.{IsBadCentre};

use crate::faults::{CentreFault, Unopened};
use crate::item::PairItem;
use dc_centre::Centre;
use journal_disk::Disk;
use journal_pair::{Pair, PairFault};
use std::alloc::Global;
use vv_core::Vector;

/// A data centre whose journal has a checkpoint of what it keeps, and all asks that may have changed it since then, in two
/// files. Contracts see its centre, its disks, and whether it is shut. It keeps no trail.
#[derive(Drop)]
pub struct PairCentre<D: Disk> {
    pub(crate) alloc: Global,
    pub(crate) me: u8,
    pub(crate) n: u8,
    pub(crate) centre: Centre,
    pub(crate) pair: Pair<D>,
    ghost own: { centre.settings.me ≡ me },
    ghost among: { centre.settings.n ≡ n },
    ghost there: { (1 ≤ me) × (me ≤ n) },
    ghost few: { n ≤ MOST_CENTRES },
}

impl<D: Disk> PairCentre<D> {
    ghost use Rattle.pair_centre.specs.Open.{settings_of, live_disk, other_disk, live_size, checkpoint_size, is_shut, IsPairOf};

    /// Centre `me` among `n` with an empty journal on two disks, whatever these held. Updates are stable once `k` centres
    /// know them, and it stamps at most `limit` transactions. Until it answers, nothing is said of what a crash leaves.
    pub fn create(
        alloc: Global,
        me: u8,
        n: u8,
        k: u8,
        limit: u64,
        first: D,
        second: D,
    ) -> Result<PairCentre<D>, Unopened<D>>
        requires centre { (1 ≤ me) × (me ≤ n) }
        requires width { n ≤ MOST_CENTRES }
        requires known { (1 ≤ k) × (k ≤ n) }
        requires most { (1 ≤ limit) × (limit ≤ MOST_RECORDS) }
        ensures ok { IfOk result (λ p. (h g : List Moment) → D.stands first h → D.stands second g → is_sound h ≡ true → is_sound g ≡ true → RanBoth (D.stands (live_disk p)) (D.stands (other_disk p)) h g (λ _ _. Unit {0}) (λ l m. IsPairOf p l m [])) }
        ensures settings { IfOk result (λ p. settings_of p ≡ numbers me n k limit) }
        ensures open { IfOk result (λ p. is_shut p ≡ false) }
        ensures err { IfErr result (λ e. IsBadCentre e.why → ⊥) }
        ensures failed_first { IfErr result (λ e. e.why ≡ OfPair (File First FileDisk) → HasRisen (D.faults first) (D.faults e.first)) }
        ensures failed_second { IfErr result (λ e. e.why ≡ OfPair (File Second FileDisk) → HasRisen (D.faults second) (D.faults e.second)) }
    {
        let centre = match Centre::new(alloc, me, n, k, limit) {
            Ok(centre) => centre,
            Err(_) => {
                return Err(Unopened {
                    why: CentreFault::Pair(PairFault::NoMemory),
                    first,
                    second,
                });
            }
        };
        match Pair::create::<PairItem>(alloc, first, second) {
            Ok(pair) => Ok(PairCentre {
                alloc,
                me,
                n,
                centre,
                pair,
            }),
            Err(failed) => Err(Unopened {
                why: CentreFault::Pair(failed.why),
                first: failed.first,
                second: failed.second,
            }),
        }
    }

    /// How many records of each centre it has, over every trail that it stands for. It takes no memory.
    pub fn vector(&self) -> Vector
        ensures { (h g : List Moment) (trail : List Entry) → IsPairOf self.now h g trail → result ≡ vector (settings_of self.now).n (applied (settings_of self.now).n trail) }
    {
        self.centre.vector()
    }

    /// How long its live file is, in bytes.
    pub fn size(&self) -> u64
        ensures { result ≡ live_size self.now }
    {
        self.pair.size()
    }

    /// How long it was with its checkpoint alone.
    pub fn checkpoint_size(&self) -> u64
        ensures { result ≡ checkpoint_size self.now }
    {
        self.pair.checkpoint_size()
    }

    /// Whether a call of a disk has failed. It then takes no more asks.
    pub fn is_shut(&self) -> bool
        ensures { result ≡ is_shut self.now }
    {
        self.pair.is_shut()
    }

    /// Gives up the centre and keeps its disks, that of its live file first.
    pub fn part(self) -> (D, D)
        ensures live { result.0 ≡ live_disk self }
        ensures other { result.1 ≡ other_disk self }
    {
        self.pair.part()
    }
}
