// The states of a bundle.
ghost use Rattle.std.specs.Prelude.{◌≡◌, map};
ghost use Rattle.std.specs.List.{list_all};
ghost use Rattle.ids_core.specs.Orders.{object_cmp};
ghost use Rattle.ids_core.specs.Ids.{same_sort};
ghost use Rattle.tx_core.specs.States.{sort_of};
ghost use Rattle.join_bundle.specs.Tests.{ascends, ascends_from};

use ids_core::ObjectId;
use tx_core::StatePart;

/// Whether the objects strictly ascend.
pub fn objects_ascend(states: &[StatePart]) -> bool
    ensures { result ≡ ascends object_cmp (map (λ s. s.object) states.now) }
{
    match states {
        [] => true,
        [first, rest @ ..] => objects_ascend_from(&first.object, rest),
    }
}

// Whether they do so from above an object on.
fn objects_ascend_from(low: &ObjectId, states: &[StatePart]) -> bool
    ensures { result ≡ ascends_from object_cmp low.now (map (λ s. s.object) states.now) }
{
    let mut last = *low;
    for part in states {
        if last >= part.object {
            return false;
        }
        last = part.object;
    }
    true
}

// Whether each state is of its object's kind.
pub(crate) fn are_of_sort(states: &[StatePart]) -> bool
    ensures { result ≡ list_all (λ s. same_sort (sort_of s.state) s.object.sort) states.now }
{
    states
        .iter()
        .all(|part| part.state.sort() == part.object.sort)
}
