// Which condition parts break first.
ghost use Rattle.std.specs.Prelude.{◌≡◌, not, IfOk};
ghost use Rattle.list_core.specs.Firsts.{first_that};
ghost use Rattle.centre_parts.specs.Conditions.{IsBroken};
ghost use Rattle.centre_parts.specs.Tests.{passes, first_failed};

use crate::condition::{CONDITIONS, Condition};
use crate::notes::{are_notes, have_stamps_of};
use crate::part::CentreParts;
use crate::point::clients_ascend;
use crate::rest::{are_noted, have_few_updates};
use crate::settings::{has_room, is_known, is_limited, is_member};
use crate::told::{is_known_over, is_stable_over};
use crate::vectors::{are_rows, are_wide};
use ids_core::{MOST_CENTRES, NoMemory};
use join_bundle::{are_apart, is_over, objects_ascend};
use std::alloc::Global;

/// The first of `CONDITIONS` that the parts break; none where they meet all. Time: linear in the parts, with a
/// logarithm for the dots of the rest; no state is copied.
#[tactic(auto, using(crate::proofs::Firsts::is_broken))]
pub fn broken(alloc: Global, parts: &CentreParts) -> Result<Option<Condition>, NoMemory>
    ensures { IfOk result (IsBroken parts.now) }
{
    first_failed(alloc, parts)
}

// The first of all conditions that the parts do not pass.
fn first_failed(alloc: Global, parts: &CentreParts) -> Result<Option<Condition>, NoMemory>
    ensures { IfOk result (λ failed. failed ≡ first_failed parts.now) }
{
    first_of(alloc, &CONDITIONS, parts)
}

// The first of some conditions that the parts do not pass.
fn first_of(
    alloc: Global,
    conditions: &[Condition],
    parts: &CentreParts,
) -> Result<Option<Condition>, NoMemory>
    ensures { IfOk result (λ failed. failed ≡ first_that (λ q. not (passes q parts.now)) conditions.now) }
{
    for condition in conditions {
        if !passes(alloc, *condition, parts)? {
            return Ok(Some(*condition));
        }
    }
    Ok(None)
}

// Whether the parts pass the test of a condition.
fn passes(alloc: Global, condition: Condition, parts: &CentreParts) -> Result<bool, NoMemory>
    ensures { IfOk result (λ met. met ≡ passes condition parts.now) }
{
    let settings = &parts.settings;
    let notes = parts.applied.notes.as_slice();
    let rest = parts.applied.rest.as_slice();
    match condition {
        Condition::Centre => Ok(is_member(settings)),
        Condition::Known => Ok(is_known(settings)),
        Condition::Limit => Ok(is_limited(settings)),
        Condition::Widths => Ok(are_wide(parts)),
        Condition::Rows => Ok(are_rows(parts.rows.as_slice(), settings.n)),
        Condition::Outbox => Ok(parts.outbox.len() == usize::from(MOST_CENTRES)),
        Condition::Room => Ok(has_room(settings, &parts.applied.vector)),
        Condition::MarkOverBase => Ok(is_over(&parts.mark, &parts.applied.point.vector)),
        Condition::StableOverMark => Ok(is_stable_over(parts)),
        Condition::KnownOverTrimmed => Ok(is_known_over(parts)),
        Condition::Notes => Ok(are_notes(notes)),
        Condition::NoteStamps => Ok(have_stamps_of(notes, settings.n)),
        Condition::PointClients => Ok(clients_ascend(parts.applied.point.numbers.as_slice())),
        Condition::PointObjects => Ok(objects_ascend(parts.applied.point.states.as_slice())),
        Condition::RestUpdates => Ok(have_few_updates(rest)),
        Condition::RestDots => are_apart(alloc, rest),
        Condition::RestNumbers => are_noted(alloc, notes, rest),
    }
}
