// Which condition parts do not pass first.
ghost use Rattle.std.specs.Prelude.{◌≡◌, not, IfOk};
ghost use Rattle.list_core.specs.Firsts.{first_that};
ghost use Rattle.join_bundle.specs.Tests.{passes, first_failed};

use crate::clients::{are_clients, clients_ascend, have_numbers, have_stamps_of};
use crate::condition::{CONDITIONS, Condition, MOST_DEPTH};
use crate::part::BundleParts;
use crate::rest::{are_apart, are_fit, are_noted, have_stamps};
use crate::states::{are_of_sort, objects_ascend};
use crate::vectors::{have_width, is_centre, is_over};
use ids_core::NoMemory;
use std::alloc::Global;

/// The first of all conditions that the parts do not pass. Time: linear in the parts, with a logarithm for the
/// numbers and the dots of the rest.
pub(crate) fn first_failed(
    alloc: Global,
    parts: &BundleParts,
) -> Result<Option<Condition>, NoMemory>
    ensures { IfOk result (λ failed. failed ≡ first_failed parts.now) }
{
    first_of(alloc, &CONDITIONS, parts)
}

// The first of some conditions that the parts do not pass.
fn first_of(
    alloc: Global,
    conditions: &[Condition],
    parts: &BundleParts,
) -> Result<Option<Condition>, NoMemory>
    ensures { IfOk result (λ failed. failed ≡ first_that (λ q. not (passes q parts.now)) conditions.now) }
{
    for condition in conditions {
        if !passes(alloc, *condition, parts)? {
            return Ok(Some(*condition));
        }
    }
    Ok(None)
}

// Whether the parts pass the test of a condition.
fn passes(alloc: Global, condition: Condition, parts: &BundleParts) -> Result<bool, NoMemory>
    ensures { IfOk result (λ met. met ≡ passes condition parts.now) }
{
    let n = parts.vector.width();
    let clients = parts.clients.as_slice();
    let states = parts.states.as_slice();
    let rest = parts.rest.as_slice();
    match condition {
        Condition::BaseWidth => Ok(parts.base.width() == n),
        Condition::MarkWidth => Ok(parts.mark.width() == n),
        Condition::RowCount => Ok(parts.rows.len() == usize::from(n)),
        Condition::RowWidths => Ok(have_width(parts.rows.as_slice(), n)),
        Condition::Donor => Ok(is_centre(n, parts.donor)),
        Condition::Depth => Ok(parts.depth <= MOST_DEPTH),
        Condition::MarkOverBase => Ok(is_over(&parts.mark, &parts.base)),
        Condition::VectorOverMark => Ok(is_over(&parts.vector, &parts.mark)),
        Condition::ClientOrder => Ok(clients_ascend(clients)),
        Condition::ClientRange => Ok(are_clients(clients)),
        Condition::ClientNumbers => Ok(have_numbers(clients)),
        Condition::ClientStamps => Ok(have_stamps_of(clients, n)),
        Condition::ObjectOrder => Ok(objects_ascend(states)),
        Condition::StateSorts => Ok(are_of_sort(states)),
        Condition::RestFit => Ok(are_fit(rest, n)),
        Condition::RestNumbers => are_noted(alloc, clients, rest),
        Condition::RestDots => are_apart(alloc, rest),
        Condition::RestStamps => Ok(have_stamps(rest)),
    }
}
