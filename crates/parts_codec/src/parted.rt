// The parts of a centre with their states taken apart, and made again.
ghost use Rattle.std.specs.Prelude.{◌≡◌, ◌↔◌, List, Err, IfOk, map};
ghost use Rattle.dc_talk.specs.Entries.{Entry};
ghost use Rattle.centre_parts.specs.declared.part.CentreParts.{CentreParts as PartsOf};
ghost use Rattle.centre_parts.specs.Conditions.{MeetsAll};
ghost use Rattle.dc_centre.specs.Centre.{CentreView, StandsFor};
ghost use Rattle.dc_centre.specs.Parts.{ArePartsOf};
ghost use Rattle.state_codec.specs.declared.plain.NotMade.TheVariants.{Unfit};
ghost use Rattle.parts_codec.specs.Plain.{plain_part, plain_centre, HasParts, AreOfKind};

use crate::plain::{PlainApplied, PlainCentre, PlainPoint, PlainStates};
use crate::states::{are_of_kind, have_parts, plain_states, states_of};
use centre_parts::{AppliedParts, CentreParts};
use check_point::PointParts;
use ids_core::NoMemory;
use state_codec::NotMade;
use std::alloc::Global;
use tx_core::StateParts;

impl PlainCentre {
    /// The parts of a centre, with their states taken apart. An `Err` lets the parts go; it is `Unfit` exactly where an object
    /// has a state of another kind.
    pub fn of(alloc: Global, parts: CentreParts) -> Result<PlainCentre, NotMade>
        ensures plain { IfOk result (λ plain. plain ≡ plain_centre parts) }
        ensures fit { IfOk result (λ plain. HasParts plain) }
        ensures kinds { IfOk result (λ _. AreOfKind parts) }
        ensures unfit { result ≡ Err Unfit ↔ (AreOfKind parts → ⊥) }
    {
        if !are_of_kind(parts.applied.point.states.as_slice()) {
            return Err(NotMade::Unfit);
        }
        match plain_states(alloc, parts.applied.point.states.as_slice()) {
            Ok(states) => Ok(with_plain(parts, states)),
            Err(NoMemory) => Err(NotMade::NoMemory),
        }
    }

    /// The parts that are taken apart into this. An `Err` lets it go; it is `Unfit` exactly where some state is that of no
    /// object.
    pub fn to_parts(self, alloc: Global) -> Result<CentreParts, NotMade>
        ensures made { IfOk result (λ parts. plain_centre parts ≡ self) }
        ensures kinds { IfOk result (λ parts. AreOfKind parts) }
        ensures fit { IfOk result (λ _. HasParts self) }
        ensures unfit { result ≡ Err Unfit ↔ (HasParts self → ⊥) }
    {
        if !have_parts(self.applied.point.states.as_slice()) {
            return Err(NotMade::Unfit);
        }
        match states_of(alloc, self.applied.point.states.as_slice()) {
            Ok(states) => Ok(with_states(self, states)),
            Err(NoMemory) => Err(NotMade::NoMemory),
        }
    }
}

// The parts of a centre with these for their states.
fn with_plain(parts: CentreParts, states: PlainStates) -> PlainCentre
    ensures plain { states ≡ map plain_part parts.applied.point.states → result ≡ plain_centre parts }
    ensures states { result.applied.point.states ≡ states }
{
    let applied = parts.applied;
    let point = applied.point;
    PlainCentre {
        settings: parts.settings,
        applied: PlainApplied {
            vector: applied.vector,
            notes: applied.notes,
            top: applied.top,
            point: PlainPoint {
                vector: point.vector,
                folded: point.folded,
                numbers: point.numbers,
                states,
            },
            rest: applied.rest,
        },
        rows: parts.rows,
        mark: parts.mark,
        trimmed: parts.trimmed,
        outbox: parts.outbox,
        stopped: parts.stopped,
    }
}

// The parts that are taken apart into this, if their states are taken apart into its own.
fn with_states(plain: PlainCentre, states: StateParts) -> CentreParts
    ensures plain { map plain_part states ≡ plain.applied.point.states → plain_centre result ≡ plain }
    ensures states { result.applied.point.states ≡ states }
{
    let applied = plain.applied;
    let point = applied.point;
    CentreParts {
        settings: plain.settings,
        applied: AppliedParts {
            vector: applied.vector,
            notes: applied.notes,
            top: applied.top,
            point: PointParts {
                vector: point.vector,
                folded: point.folded,
                numbers: point.numbers,
                states,
            },
            rest: applied.rest,
        },
        rows: plain.rows,
        mark: plain.mark,
        trimmed: plain.trimmed,
        outbox: plain.outbox,
        stopped: plain.stopped,
    }
}

/// Parts of objects with states of their kinds that are taken apart into the same are the same.
pub fn law_plain_parts()
    ensures { (parts other : PartsOf) → AreOfKind parts → AreOfKind other → plain_centre parts ≡ plain_centre other → parts ≡ other }
{}

/// The parts of a centre that stands for a trail are of objects with states of their kinds.
pub fn law_of_kind()
    ensures { (c : CentreView) (trail : List Entry) (parts : PartsOf) → StandsFor c trail → MeetsAll parts → ArePartsOf c parts → AreOfKind parts }
{}
