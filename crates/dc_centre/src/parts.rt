// A centre that is taken apart, and one that is made of parts.
ghost use Rattle.std.specs.Prelude.{◌≡◌, IfOk, IfErr, List as ListOf};
ghost use Rattle.dc_talk.specs.Entries.{Entry};
ghost use Rattle.centre_parts.specs.declared.part.CentreParts.{CentreParts as PartsOf};
ghost use Rattle.centre_parts.specs.Conditions.{MeetsAll, table_of};
ghost use Rattle.dc_centre.specs.Centre.{CentreView, StandsFor};
ghost use Rattle.dc_centre.specs.declared.parts.Refusal.TheVariants.{OutOfMemory};
ghost use Rattle.dc_centre.specs.Parts.{ArePartsOf, IsCauseFor};

use crate::applied::Applied;
use crate::centre::Centre;
use crate::outbox::Outbox;
use centre_parts::{CentreParts, Condition, broken};
use ids_core::NoMemory;
use k_stable::Told;
use list_core::List;
use std::alloc::Global;

/// Why no centre is made of parts.
#[derive(Clone, Copy)]
pub enum Refusal {
    /// They break a condition, and none before it in the order of `CONDITIONS`.
    Broken { condition: Condition },
    /// There was no room.
    OutOfMemory,
}

impl Centre {
    /// What the centre keeps. No other parts are that. Time: a copy of all states and of all that is not folded or
    /// let go, and a sort of the objects and of the clients. An `Err` is want of memory.
    pub fn parts(&self, alloc: Global) -> Result<CentreParts, NoMemory>
        ensures told { IfOk result (ArePartsOf self.now) }
        ensures are { IfOk result MeetsAll }
        ensures only { IfOk result (λ parts. (others : PartsOf) → MeetsAll others → ArePartsOf self.now others → others ≡ parts) }
    {
        Ok(CentreParts {
            settings: self.settings,
            applied: self.applied.parts(alloc)?,
            rows: List::from_vec(Vec::from_slice(alloc, self.told.rows())?),
            mark: self.mark,
            trimmed: self.trimmed,
            outbox: self.outbox.parts(alloc)?,
            stopped: self.stopped,
        })
    }

    /// The centre of which these are the parts. It stands for each trail for which any centre with these parts
    /// stands. An `Err` has the first condition that they break, or is want of memory. Time: linear in the parts,
    /// with a logarithm for the tables.
    pub fn of_parts(alloc: Global, parts: CentreParts) -> Result<Centre, Refusal>
        ensures told { IfOk result (λ centre. ArePartsOf centre parts) }
        ensures are { IfOk result (λ _. MeetsAll parts) }
        ensures stands { IfOk result (λ centre. (old : CentreView) (trail : ListOf Entry) → ArePartsOf old parts → StandsFor old trail → StandsFor centre trail) }
        ensures err { IfErr result (IsCauseFor parts) }
    {
        match broken(alloc, &parts) {
            Ok(None) => made(alloc, parts),
            Ok(Some(condition)) => Err(Refusal::Broken { condition }),
            Err(NoMemory) => Err(Refusal::OutOfMemory),
        }
    }
}

// The centre of parts that meet all conditions.
fn made(alloc: Global, parts: CentreParts) -> Result<Centre, Refusal>
    requires { MeetsAll parts }
    ensures told { IfOk result (λ centre. ArePartsOf centre parts) }
    ensures stands { IfOk result (λ centre. (old : CentreView) (trail : ListOf Entry) → ArePartsOf old parts → StandsFor old trail → StandsFor centre trail) }
    ensures err { IfErr result (λ refusal. refusal ≡ OutOfMemory) }
{
    match centre_of(alloc, parts) {
        Ok(centre) => Ok(centre),
        Err(NoMemory) => Err(Refusal::OutOfMemory),
    }
}

// The same, where want of memory alone refuses.
fn centre_of(alloc: Global, parts: CentreParts) -> Result<Centre, NoMemory>
    requires { MeetsAll parts }
    ensures told { IfOk result (λ centre. ArePartsOf centre parts) }
    ensures stands { IfOk result (λ centre. (old : CentreView) (trail : ListOf Entry) → ArePartsOf old parts → StandsFor old trail → StandsFor centre trail) }
{
    let told = told_of(&parts);
    let CentreParts {
        settings,
        applied,
        rows: _,
        mark,
        trimmed,
        outbox,
        stopped,
    } = parts;
    Ok(Centre {
        settings,
        applied: Applied::of_parts(alloc, applied)?,
        told,
        mark,
        trimmed,
        outbox: Outbox::of_parts(alloc, outbox)?,
        stopped,
    })
}

// The told table of parts that meet all conditions.
#[tactic(auto, using(crate::proofs::CentreParts::table_met))]
fn told_of(parts: &CentreParts) -> Told
    requires { MeetsAll parts.now }
    ensures { result ≡ table_of parts.now }
{
    let settings = &parts.settings;
    Told::of_rows(settings.me, settings.n, settings.k, parts.rows.as_slice())
}
