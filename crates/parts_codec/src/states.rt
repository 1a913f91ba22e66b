// The states of the objects of a point, taken apart and made again.
ghost use Rattle.std.specs.Prelude.{◌≡◌, ◌↔◌, All, IsTrue, IfOk, map};
ghost use Rattle.parts_codec.specs.Plain.{plain_part, HasPart, IsOfKind};

use crate::plain::PlainStates;
use ids_core::{NoMemory, ObjectId};
use list_core::List;
use state_codec::{NotMade, PlainPart, PlainState};
use std::alloc::Global;
use tx_core::{StatePart, StateParts};

// Whether each object has a state of its kind.
pub(crate) fn are_of_kind(parts: &[StatePart]) -> bool
    ensures { IsTrue result ↔ All IsOfKind parts.now }
{
    parts.iter().all(|part| is_of_kind(part))
}

// The same of one object.
fn is_of_kind(part: &StatePart) -> bool
    ensures { IsTrue result ↔ IsOfKind part.now }
{
    part.object.sort == part.state.sort()
}

// The states, taken apart.
pub(crate) fn plain_states(alloc: Global, parts: &[StatePart]) -> Result<PlainStates, NoMemory>
    ensures plain { IfOk result (λ plain. plain ≡ map plain_part parts.now) }
    ensures fit { IfOk result (λ plain. All HasPart plain) }
{
    let mut plain = List::new(alloc);
    for part in parts {
        plain.push(PlainPart {
            name: part.object.name,
            state: PlainState::of(alloc, &part.state)?,
        })?;
    }
    Ok(plain)
}

// Whether each is taken apart from a state.
pub(crate) fn have_parts(plain: &[PlainPart]) -> bool
    ensures { IsTrue result ↔ All HasPart plain.now }
{
    plain.iter().all(|part| part.state.has_state())
}

// The objects with the states that are taken apart into these.
pub(crate) fn states_of(alloc: Global, plain: &[PlainPart]) -> Result<StateParts, NoMemory>
    requires { All HasPart plain.now }
    ensures made { IfOk result (λ parts. map plain_part parts ≡ plain.now) }
    ensures kinds { IfOk result (λ parts. All IsOfKind parts) }
{
    let mut parts = List::new(alloc);
    for part in plain {
        parts.push(state_of(alloc, part)?)?;
    }
    Ok(parts)
}

// The object with the state that is taken apart into this.
fn state_of(alloc: Global, plain: &PlainPart) -> Result<StatePart, NoMemory>
    requires { HasPart plain.now }
    ensures made { IfOk result (λ part. plain_part part ≡ plain.now) }
    ensures kind { IfOk result IsOfKind }
{
    match plain.state.to_state(alloc) {
        Ok(state) => {
            let object = ObjectId {
                sort: state.sort(),
                name: plain.name,
            };
            Ok(StatePart { object, state })
        }
        Err(NotMade::NoMemory) => Err(NoMemory),
        Err(NotMade::Unfit) => unreachable!(),
    }
}
