// Bundles.
ghost use Rattle.std.specs.Prelude.{◌≡◌, IfOk, IfErr};
ghost use Rattle.join_bundle.specs.declared.bundle.Cause.TheVariants.{OutOfMemory};
ghost use Rattle.join_bundle.specs.Bundles.{IsBundle, IsCauseFor};

use crate::condition::Condition;
use crate::conditions::first_failed;
use crate::part::BundleParts;
use ids_core::NoMemory;
use std::alloc::Global;
use std::marker::Model;
use std::sync::Arc;

/// What a centre gives to one that joins late, seen as its parts. Nothing changes it, so copies share the parts.
#[derive(Drop)]
pub struct Bundle {
    parts: Arc<BundleParts>,
}

/// Why parts are no bundle.
#[derive(Clone, Copy, Debug)]
pub enum Cause {
    /// They break a condition, and none before it in the order of `CONDITIONS`.
    Broken { condition: Condition },
    /// There was no room.
    OutOfMemory,
}

/// Parts that are handed back, and why.
#[derive(Drop)]
pub struct Refused {
    pub cause: Cause,
    pub parts: BundleParts,
}

impl Model for Bundle {
    ghost use Rattle.std.specs.Arc.{arc_value};
    ghost use Rattle.tx_core.specs.States.{state_codes};
    ghost use Rattle.join_bundle.specs.declared.part.BundleParts.{BundleParts};
    ghost use Rattle.join_bundle.specs.Bundles.{IsBundle};

    ghost Value = { BundleParts };

    ghost coded = { Prim.hlevel state_codes };

    ghost view = { λ b. arc_value b.parts };

    ghost invariant = { λ b. IsBundle (arc_value b.parts) };
}

impl Bundle {
    /// The bundle of parts that meet all of `CONDITIONS`. That they are those of any centre is not tested. An
    /// `Err` hands them back, with the first condition that they break, or where memory ran out. Time: linear
    /// in the parts, with a logarithm for the rest; no state is copied.
    #[tactic(auto, using(crate::proofs::Firsts::bundle_of, crate::proofs::Firsts::broken_of))]
    pub fn of(alloc: Global, parts: BundleParts) -> Result<Bundle, Refused>
        ensures taken { IfOk result (λ bundle. bundle ≡ parts) }
        ensures meets { IfOk result IsBundle }
        ensures back { IfErr result (λ refused. refused.parts ≡ parts) }
        ensures cause { IfErr result (λ refused. IsCauseFor parts refused.cause) }
    {
        match first_failed(alloc, &parts) {
            Ok(None) => share(alloc, parts),
            Ok(Some(condition)) => Err(Refused {
                cause: Cause::Broken { condition },
                parts,
            }),
            Err(NoMemory) => Err(Refused {
                cause: Cause::OutOfMemory,
                parts,
            }),
        }
    }

    /// The parts. They meet all conditions.
    pub fn parts(&self) -> &BundleParts
        ensures value { result.now ≡ self.now }
        ensures meets { IsBundle result.now }
    {
        &self.parts
    }

    /// The same bundle again. It takes no memory.
    pub fn copy(&self) -> Result<Bundle, NoMemory>
        ensures { IfOk result (λ copy. copy ≡ self.now) }
    {
        Ok(Bundle {
            parts: Arc::try_clone(&self.parts)?,
        })
    }
}

// The bundle of parts that meet all conditions. Where memory is refused they come back.
fn share(alloc: Global, parts: BundleParts) -> Result<Bundle, Refused>
    requires { IsBundle parts }
    ensures taken { IfOk result (λ bundle. bundle ≡ parts) }
    ensures back { IfErr result (λ refused. refused.parts ≡ parts) }
    ensures cause { IfErr result (λ refused. refused.cause ≡ OutOfMemory) }
{
    match Arc::new(alloc, parts) {
        Ok(parts) => Ok(Bundle { parts }),
        Err(failed) => Err(Refused {
            cause: Cause::OutOfMemory,
            parts: failed.value,
        }),
    }
}
