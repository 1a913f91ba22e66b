// A centre goes on from the checkpoint in two files and the asks behind it.
ghost use Rattle.std.specs.Prelude.{◌≡◌, ◌≤◌, ◌⊎◌, true, false, List, IfOk, IfErr};
ghost use Rattle.journal_disk.specs.declared.disk.Moment.{Moment};
ghost use Rattle.journal_disk.specs.Disk.{seen, is_sound, HasRisen};
ghost use Rattle.journal_file.specs.declared.faults.OpenFault.TheVariants.{Disk as FileDisk};
ghost use Rattle.journal_pair.specs.declared.faults.PairFault.TheVariants.{File};
ghost use Rattle.journal_pair.specs.declared.faults.Side.TheVariants.{First, Second};
ghost use Rattle.journal_pair.specs.Choices.{at_side, beside};
ghost use Rattle.journal_pair.specs.Files.{RanBoth, PairOf};
ghost use Rattle.journal_pair.specs.Pairs as pairs;
ghost use Rattle.dc_talk.specs.Answers.{History};
ghost use Rattle.dc_talk.specs.Entries.{Entry};
ghost use Rattle.ids_core.specs.declared.limits.TheConstants.{MOST_CENTRES, MOST_RECORDS};
ghost use Rattle.dc_centre.specs.Centre.{StandsFor};
ghost use Rattle.dc_journal.specs.Files.{numbers};
ghost use Rattle.pair_centre.specs.declared.item.PairItem.{PairItem as ItemOf};
ghost use Rattle.pair_centre.specs.declared.faults.CentreFault.TheVariants.{Pair as OfPair};
ghost use Rattle.pair_centre.specs.Causes.{AreTaken, HasFault, HasCauseIn};
ghost use Rattle.pair_centre.specs.Faults.{IsBadCentre};
ghost use Rattle.pair_centre.specs.Items.{item_bytes};
ghost use Rattle.pair_centre.specs.States.{IsStateOf, IsPairFileOf, IsFoundPair};

use crate::faults::{CentreFault, Unopened};
use crate::item::PairItem;
use crate::pair_centre::PairCentre;
use crate::replaying::{begin, replay};
use dc_centre::Centre;
use dc_talk::Settings;
use journal_disk::Disk;
use journal_pair::{Pair, Side};
use std::alloc::Global;

impl<D: Disk> PairCentre<D> {
    ghost use Rattle.pair_centre.specs.Open.{settings_of, live_disk, other_disk, is_shut, IsPairOf};

    /// The centre of the trail whose files two disks have, on which a call may have been cut short. It is given the numbers
    /// with which the centre was made. An `Err` gives the disks back in the order in which they were given, and its fault has
    /// its cause in their files: `Pair` where they are no pair, `BadCheckpoint` where the checkpoint is not the parts of such
    /// a centre, and `BadAsk` for the first item behind it that the centre does not take there. Files of a history have no
    /// fault but want of memory, and that of a disk.
    pub fn open(
        alloc: Global,
        me: u8,
        n: u8,
        k: u8,
        limit: u64,
        first: D,
        second: D,
    ) -> Result<PairCentre<D>, Unopened<D>>
        requires centre { (1 ≤ me) × (me ≤ n) }
        requires width { n ≤ MOST_CENTRES }
        requires known { (1 ≤ k) × (k ≤ n) }
        requires most { (1 ≤ limit) × (limit ≤ MOST_RECORDS) }
        ensures ok { IfOk result (λ p. (h j : List Moment) (trail : List Entry) → D.is_honest (live_disk p) → D.is_honest (other_disk p) → D.stands first h → D.stands second j → is_sound h ≡ true → is_sound j ≡ true
            → History (numbers me n k limit) trail → IsPairFileOf (numbers me n k limit) trail (seen h) (seen j)
            → (RanBoth (D.stands (live_disk p)) (D.stands (other_disk p)) h j (IsFoundPair (numbers me n k limit) trail h j) (λ l m. IsPairOf p l m trail))
            ⊎ (RanBoth (D.stands (other_disk p)) (D.stands (live_disk p)) h j (IsFoundPair (numbers me n k limit) trail h j) (λ l m. IsPairOf p m l trail))) }
        ensures is { IfOk result (λ p. (h j : List Moment) → D.is_honest (live_disk p) → D.is_honest (other_disk p) → D.stands first h → D.stands second j → is_sound h ≡ true → is_sound j ≡ true
            → (checkpoint : List ItemOf) × ((behind : List ItemOf) × ((PairOf item_bytes checkpoint behind (seen h) (seen j)) × (AreTaken (numbers me n k limit) checkpoint behind)))) }
        ensures settings { IfOk result (λ p. settings_of p ≡ numbers me n k limit) }
        ensures open { IfOk result (λ p. is_shut p ≡ false) }
        ensures err { IfErr result (λ e. (h j : List Moment) (trail : List Entry) → D.is_honest e.first → D.is_honest e.second → D.stands first h → D.stands second j → is_sound h ≡ true → is_sound j ≡ true
            → History (numbers me n k limit) trail → IsPairFileOf (numbers me n k limit) trail (seen h) (seen j)
            → RanBoth (D.stands e.first) (D.stands e.second) h j (IsFoundPair (numbers me n k limit) trail h j) (λ _ _. IsBadCentre e.why → ⊥)) }
        ensures cause { IfErr result (λ e. (h j : List Moment) → D.is_honest e.first → D.is_honest e.second → D.stands first h → D.stands second j → is_sound h ≡ true → is_sound j ≡ true → HasCauseIn (numbers me n k limit) e.why (seen h) (seen j)) }
        ensures failed_first { IfErr result (λ e. e.why ≡ OfPair (File First FileDisk) → HasRisen (D.faults first) (D.faults e.first)) }
        ensures failed_second { IfErr result (λ e. e.why ≡ OfPair (File Second FileDisk) → HasRisen (D.faults second) (D.faults e.second)) }
    {
        let opened = match Pair::open::<PairItem>(alloc, first, second) {
            Ok(opened) => opened,
            Err(e) => {
                return Err(Unopened {
                    why: CentreFault::Pair(e.why),
                    first: e.first,
                    second: e.second,
                });
            }
        };
        let settings = Settings { me, n, k, limit };
        match recover(alloc, settings, opened.checkpoint, &opened.behind) {
            Ok(centre) => Ok(PairCentre {
                alloc,
                me,
                n,
                centre,
                pair: opened.pair,
            }),
            Err(why) => Err(given_up(why, opened.side, opened.pair)),
        }
    }
}

// The centre of a checkpoint and the items behind it.
fn recover(
    alloc: Global,
    settings: Settings,
    checkpoint: Vec<PairItem>,
    behind: &[PairItem],
) -> Result<Centre, CentreFault>
    requires centre { (1 ≤ settings.me) × (settings.me ≤ settings.n) }
    requires width { settings.n ≤ MOST_CENTRES }
    requires known { (1 ≤ settings.k) × (settings.k ≤ settings.n) }
    requires most { (1 ≤ settings.limit) × (settings.limit ≤ MOST_RECORDS) }
    ensures settings { IfOk result (λ c. c.settings ≡ settings) }
    ensures stands { IfOk result (λ c. (trail : List Entry) → History settings trail → IsStateOf settings trail checkpoint.items behind.now → StandsFor c trail) }
    ensures taken { IfOk result (λ c. AreTaken settings checkpoint.items behind.now) }
    ensures fault { IfErr result (λ e. HasFault settings e checkpoint.items behind.now) }
{
    let centre = match begin(alloc, settings, checkpoint) {
        Ok(centre) => centre,
        Err(why) => return Err(why),
    };
    replay(alloc, settings.me, centre, behind)
}

// The disks of a pair, in the order in which they were given, and why no centre goes on with it.
fn given_up<D: Disk>(why: CentreFault, side: Side, pair: Pair<D>) -> Unopened<D>
    ensures why { result.why ≡ why }
    ensures first { result.first ≡ at_side side (pairs.live_disk pair) (pairs.other_disk pair) }
    ensures second { result.second ≡ beside side (pairs.live_disk pair) (pairs.other_disk pair) }
{
    let (live, other) = pair.part();
    match side {
        Side::First => Unopened {
            why,
            first: live,
            second: other,
        },
        Side::Second => Unopened {
            why,
            first: other,
            second: live,
        },
    }
}
