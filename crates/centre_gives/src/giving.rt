// What a centre gives to one that joins late.
ghost use Rattle.std.specs.Prelude.{◌≡◌, IfOk, IfErr, List};
ghost use Rattle.join_bundle.specs.declared.bundle.Cause.TheVariants.{OutOfMemory};
ghost use Rattle.join_bundle.specs.Bundles.{IsBundle};
ghost use Rattle.dc_talk.specs.Entries.{Entry};
ghost use Rattle.dc_talk.specs.Laws.{IsCentreHistory};
ghost use Rattle.cut_law.specs.Cuts.{IsCutOf};
ghost use Rattle.dc_centre.specs.Centre.{StandsFor};
ghost use Rattle.centre_gives.specs.Giving.{IsMadeOf};

use crate::parts::given_of;
use dc_centre::Centre;
use ids_core::NoMemory;
use join_bundle::{Bundle, BundleParts, Cause};
use std::alloc::Global;

/// The bundle that the centre gives to one that joins late: of each trail that the centre stands for it is the cut, at
/// the centre's base. The centre does not change. Time: linear in what the centre keeps, with a logarithm; all states
/// and all that is not folded or let go are copied. An `Err` is want of memory wherever the centre stands for a history.
pub fn give(alloc: Global, centre: &Centre) -> Result<Bundle, Cause>
    ensures cut { IfOk result (λ bundle. (trail : List Entry) → StandsFor centre.now trail → IsCutOf centre.now.settings trail bundle) }
    ensures err { IfErr result (λ cause. (trail : List Entry) → StandsFor centre.now trail → IsCentreHistory centre.now.settings trail → cause ≡ OutOfMemory) }
{
    match parts_of(alloc, centre) {
        Ok(parts) => bundle_of(alloc, parts),
        Err(NoMemory) => Err(Cause::OutOfMemory),
    }
}

// The parts of that bundle.
fn parts_of(alloc: Global, centre: &Centre) -> Result<BundleParts, NoMemory>
    ensures { IfOk result (IsMadeOf centre.now) }
{
    given_of(alloc, centre.parts(alloc)?)
}

// The bundle of parts. Where they make one, want of memory alone refuses.
#[tactic(auto, using(crate::proofs::Causes::only_memory))]
fn bundle_of(alloc: Global, parts: BundleParts) -> Result<Bundle, Cause>
    ensures taken { IfOk result (λ bundle. bundle ≡ parts) }
    ensures err { IfErr result (λ cause. IsBundle parts → cause ≡ OutOfMemory) }
{
    match Bundle::of(alloc, parts) {
        Ok(bundle) => Ok(bundle),
        Err(refused) => Err(refused.cause),
    }
}
