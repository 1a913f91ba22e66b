// A centre starts with a checkpoint, and is asked again what stands behind it.
ghost use Rattle.std.specs.Prelude.{◌≡◌, ◌≤◌, [], ◌∷◌, true, false, List, IfOk, IfErr, IsTrue, ◌↔◌};
ghost use Rattle.dc_talk.specs.Entries.{Entry};
ghost use Rattle.ids_core.specs.declared.limits.TheConstants.{MOST_CENTRES, MOST_RECORDS};
ghost use Rattle.dc_centre.specs.Centre.{StandsFor};
ghost use Rattle.centre_parts.specs.declared.part.CentreParts.{CentreParts as PartsOf};
ghost use Rattle.pair_centre.specs.declared.item.PairItem.{PairItem as ItemOf};
ghost use Rattle.pair_centre.specs.declared.item.PairItem.TheVariants.{Parts};
ghost use Rattle.pair_centre.specs.Causes.{IsStart, IsTakenItem, HasFault};
ghost use Rattle.pair_centre.specs.Replays.{TakesItem, TakesItems, HasStopped};
ghost use Rattle.pair_centre.specs.States.{IsItemOf, IsPartsOf, IsCheckpointOf};

use crate::faults::CentreFault;
use crate::item::PairItem;
use dc_centre::{Centre, Refusal};
use dc_journal::is_kept;
use dc_talk::Settings;
use journal_asks::by_of;
use journal_pair::PairFault;
use parts_codec::{PartsItem, law_plain_parts};
use state_codec::NotMade;
use std::alloc::Global;

/// The centre of a checkpoint.
pub fn begin(
    alloc: Global,
    settings: Settings,
    checkpoint: Vec<PairItem>,
) -> Result<Centre, CentreFault>
    requires centre { (1 ≤ settings.me) × (settings.me ≤ settings.n) }
    requires width { settings.n ≤ MOST_CENTRES }
    requires known { (1 ≤ settings.k) × (settings.k ≤ settings.n) }
    requires most { (1 ≤ settings.limit) × (settings.limit ≤ MOST_RECORDS) }
    ensures settings { IfOk result (λ c. c.settings ≡ settings) }
    ensures start { IfOk result (λ c. IsStart settings checkpoint.items) }
    ensures stands { IfOk result (λ c. (front : List Entry) → IsCheckpointOf settings front checkpoint.items → StandsFor c front) }
    ensures fault { IfErr result (λ e. (behind : List ItemOf) → HasFault settings e checkpoint.items behind) }
{
    let mut rest = checkpoint;
    let item = match rest.pop() {
        Some(item) => item,
        None => return fresh(alloc, settings),
    };
    if !rest.is_empty() {
        return Err(CentreFault::BadCheckpoint);
    }
    match item {
        PairItem::Parts(item) => centre_of(alloc, settings, item),
        PairItem::Asked(_) => Err(CentreFault::BadCheckpoint),
    }
}

// The centre of the empty trail.
fn fresh(alloc: Global, settings: Settings) -> Result<Centre, CentreFault>
    requires centre { (1 ≤ settings.me) × (settings.me ≤ settings.n) }
    requires width { settings.n ≤ MOST_CENTRES }
    requires known { (1 ≤ settings.k) × (settings.k ≤ settings.n) }
    requires most { (1 ≤ settings.limit) × (settings.limit ≤ MOST_RECORDS) }
    ensures settings { IfOk result (λ c. c.settings ≡ settings) }
    ensures stands { IfOk result (λ c. (front : List Entry) → IsCheckpointOf settings front [] → StandsFor c front) }
    ensures fault { IfErr result (λ e. (behind : List ItemOf) → HasFault settings e [] behind) }
{
    match Centre::new(alloc, settings.me, settings.n, settings.k, settings.limit) {
        Ok(centre) => Ok(centre),
        Err(_) => Err(CentreFault::Pair(PairFault::NoMemory)),
    }
}

// The centre of the parts that an item has.
fn centre_of(alloc: Global, settings: Settings, item: PartsItem) -> Result<Centre, CentreFault>
    ensures settings { IfOk result (λ c. c.settings ≡ settings) }
    ensures start { IfOk result (λ c. IsStart settings (Parts item ∷ [])) }
    ensures stands { IfOk result (λ c. (front : List Entry) → IsCheckpointOf settings front (Parts item ∷ []) → StandsFor c front) }
    ensures fault { IfErr result (λ e. (behind : List ItemOf) → HasFault settings e (Parts item ∷ []) behind) }
{
    law_plain_parts();
    if !is_same(&item.centre.settings, &settings) {
        return Err(CentreFault::BadCheckpoint);
    }
    let parts = match item.centre.to_parts(alloc) {
        Ok(parts) => parts,
        Err(NotMade::Unfit) => return Err(CentreFault::BadCheckpoint),
        Err(NotMade::NoMemory) => return Err(CentreFault::Pair(PairFault::NoMemory)),
    };
    match Centre::of_parts(alloc, parts) {
        Ok(centre) => Ok(centre),
        Err(Refusal::Broken { .. }) => Err(CentreFault::BadCheckpoint),
        Err(Refusal::OutOfMemory) => Err(CentreFault::Pair(PairFault::NoMemory)),
    }
}

// Whether two centres have the same numbers.
fn is_same(a: &Settings, b: &Settings) -> bool
    ensures { IsTrue result ↔ (a.now ≡ b.now) }
{
    a.me == b.me && a.n == b.n && a.k == b.k && a.limit == b.limit
}

/// The centre after all these items.
pub fn replay(
    alloc: Global,
    me: u8,
    centre: Centre,
    items: &[PairItem],
) -> Result<Centre, CentreFault>
    requires { centre.settings.me ≡ me }
    ensures settings { IfOk result (λ c. c.settings ≡ centre.settings) }
    ensures all { IfOk result (λ c. TakesItems centre.settings centre c items.now) }
    ensures stopped { IfErr result (HasStopped centre.settings centre items.now) }
{
    let mut centre = centre;
    let mut place = 0;
    for item in items {
        match take_item(alloc, me, &mut centre, item) {
            Ok(true) => place += 1,
            Ok(false) => return Err(CentreFault::BadAsk(place)),
            Err(why) => return Err(why),
        }
    }
    Ok(centre)
}

// Has the centre take an item, and tells whether it did: it is an ask that names this centre, and its reply is kept.
fn take_item(
    alloc: Global,
    me: u8,
    centre: &mut Centre,
    item: &PairItem,
) -> Result<bool, CentreFault>
    requires { centre.old.settings.me ≡ me }
    ensures settings { centre.new.settings ≡ centre.old.settings }
    ensures taken { IfOk result (λ taken. taken ≡ true → TakesItem centre.old.settings centre.old centre.new item.now) }
    ensures none { IfOk result (λ taken. taken ≡ false → (trail : List Entry) → StandsFor centre.old trail → IsTakenItem centre.old.settings trail item.now → ⊥) }
    ensures memory { IfErr result (λ e. e ≡ CentreFault.Pair PairFault.NoMemory) }
{
    let PairItem::Asked(kept) = item else {
        return Ok(false);
    };
    if kept.by != by_of(me, &kept.ask) {
        return Ok(false);
    }
    let Ok((say, _)) = centre.step(alloc, &kept.ask) else {
        return Err(CentreFault::Pair(PairFault::NoMemory));
    };
    Ok(is_kept(&say))
}
