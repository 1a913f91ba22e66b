// The state, and the object with its state, with which bytes begin.
ghost use Rattle.std.specs.Prelude.{◌≡◌, ◌≤◌, IfOk};
ghost use Rattle.state_codec.specs.Reading.{Gives, body_at, plain_at, named_at};
ghost use Rattle.state_codec.specs.Spelling.{spelled, IsSpelled, part_bytes, IsSpelledPart};
ghost use Rattle.state_codec.specs.Fronts.{IsFront};

use crate::fields::{last_at, name_at, sum_at};
use crate::numbers::u8_at;
use crate::state::{PlainPart, PlainState};
use crate::stop::Stop;
use crate::tallies::{entries_at, members_at};
use ids_core::NoMemory;
use list_core::List;
use std::alloc::Global;

/// The state with which the bytes begin, and how many of them it has. There is none exactly where they begin with the bytes
/// of no state. What stands behind them is not looked at.
pub fn state_at(alloc: Global, bytes: &[u8]) -> Result<Option<(PlainState, usize)>, NoMemory>
    ensures { IfOk result (IsFront IsSpelled spelled bytes.now) }
{
    match plain_at(alloc, bytes) {
        Ok((state, rest)) => {
            let count = bytes.len() - rest.len();
            Ok(Some((state, count)))
        }
        Err(Stop::Memory) => Err(NoMemory),
        Err(Stop::Other) => Ok(None),
    }
}

/// The object and its state with which the bytes begin, and how many of them both have. There is none exactly where they begin
/// with the bytes of none. What stands behind them is not looked at.
pub fn part_at(alloc: Global, bytes: &[u8]) -> Result<Option<(PlainPart, usize)>, NoMemory>
    ensures { IfOk result (IsFront IsSpelledPart part_bytes bytes.now) }
{
    match named_at(alloc, bytes) {
        Ok((part, rest)) => {
            let count = bytes.len() - rest.len();
            Ok(Some((part, count)))
        }
        Err(Stop::Memory) => Err(NoMemory),
        Err(Stop::Other) => Ok(None),
    }
}

// A state, behind the name of its object.
#[tactic(auto, unfolding(crate::specs::Reading::named_at))]
fn named_at(alloc: Global, bytes: &[u8]) -> Result<(PlainPart, &[u8]), Stop>
    ensures { Gives (λ x. (x.0, x.1.now)) result (named_at bytes.now) }
{
    let (name, rest) = found!(name_at(bytes));
    let (state, rest) = found!(plain_at(alloc, rest));
    Ok((PlainPart { name, state }, rest))
}

// A state, behind its kind.
#[tactic(auto, unfolding(crate::specs::Reading::plain_at))]
fn plain_at(alloc: Global, bytes: &[u8]) -> Result<(PlainState, &[u8]), Stop>
    ensures { Gives (λ x. (x.0, x.1.now)) result (plain_at bytes.now) }
{
    let (kind, rest) = u8_at(1, 4, bytes)?;
    body_at(alloc, kind, rest)
}

// What a kind has.
#[tactic(auto, unfolding(crate::specs::Reading::body_at))]
fn body_at(alloc: Global, kind: u8, bytes: &[u8]) -> Result<(PlainState, &[u8]), Stop>
    ensures { Gives (λ x. (x.0, x.1.now)) result (body_at kind bytes.now) }
{
    match kind {
        1 => {
            let (sum, rest) = found!(sum_at(bytes));
            Ok((PlainState::Counter(sum), rest))
        }
        2 => {
            let (last, rest) = found!(last_at(bytes));
            Ok((PlainState::Register(last), rest))
        }
        3 => {
            let (list, rest) = found!(members_at(alloc, bytes));
            Ok((PlainState::Set(List::from_vec(list)), rest))
        }
        _ => {
            let (list, rest) = found!(entries_at(alloc, bytes));
            Ok((PlainState::Map(List::from_vec(list)), rest))
        }
    }
}
