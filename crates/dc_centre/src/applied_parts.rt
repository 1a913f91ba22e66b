// What a centre keeps of applied records, taken apart and made again.
ghost use Rattle.std.specs.Prelude.{◌≡◌, IfOk};
ghost use Rattle.centre_parts.specs.declared.part.AppliedParts.{AppliedParts as PartsOf};
ghost use Rattle.point_log.specs.KeptLogs.{IsKeptLog};
ghost use Rattle.dc_centre.specs.Parts.{AreAppliedParts, AreAppliedPartsOf};

use crate::applied::Applied;
use centre_parts::AppliedParts;
use check_point::Point;
use dup_guard::Guard;
use ids_core::NoMemory;
use list_core::List;
use op_log::Log;
use std::alloc::Global;
use std::collections::BTreeMap;

impl Applied {
    /// What is kept, but for the states that were served and the numbers that were told. No other parts are that. Time: a copy of all states and
    /// of the log, and a sort of the objects and of the clients.
    pub fn parts(&self, alloc: Global) -> Result<AppliedParts, NoMemory>
        ensures told { IfOk result (AreAppliedPartsOf self.now) }
        ensures are { IfOk result AreAppliedParts }
        ensures only { IfOk result (λ parts. (others : PartsOf) → AreAppliedParts others → AreAppliedPartsOf self.now others → others ≡ parts) }
    {
        Ok(AppliedParts {
            vector: self.vector,
            notes: List::from_vec(self.guard.parts(alloc)?),
            top: self.top,
            point: self.point.parts(alloc)?,
            rest: self.log.parts()?,
        })
    }

    /// What is kept where these are its parts. No state is served yet, no number told, and nothing known of objects. Time: linear in the parts, with a logarithm
    /// for the tables.
    pub fn of_parts(alloc: Global, parts: AppliedParts) -> Result<Applied, NoMemory>
        requires { AreAppliedParts parts }
        ensures told { IfOk result (λ applied. AreAppliedPartsOf applied parts) }
        ensures log { IfOk result (λ applied. IsKeptLog applied.log) }
    {
        Ok(Applied {
            vector: parts.vector,
            guard: Guard::of_parts(alloc, parts.notes.as_slice())?,
            top: parts.top,
            point: Point::of_parts(alloc, parts.point)?,
            log: Log::of_parts(alloc, parts.rest)?,
            served: BTreeMap::new(alloc),
            mines: BTreeMap::new(alloc),
            passed: BTreeMap::new(alloc),
        })
    }
}
