// Fields that are names, identifiers, sums and writes.
ghost use Rattle.std.specs.Prelude.{◌≡◌, ◌≤◌, Some, None, length, if◌then◌else◌};
ghost use Rattle.wire_codec.specs.Grammar.{are_name_bytes};
ghost use Rattle.state_codec.specs.Reading.{Gives, name_at, id_at, sum_at, write_at, last_at, tally_at, place_at, put_at, kept_at};

use crate::numbers::{u8_at, u16_at, u32_at, u64_at};
use crate::stop::Stop;
use ids_core::{Dot, MOST_CLIENTS, MOST_NUMBER, MOST_UPDATES, Mark, Name, OpId};
use obj_map::Put;
use obj_register::RegisterOp;
use tally_core::Place;

/// A name.
#[tactic(auto, unfolding(crate::specs::Reading::name_at))]
pub fn name_at(bytes: &[u8]) -> Result<(Name, &[u8]), Stop>
    ensures { Gives (λ x. (x.0, x.1.now)) result (name_at bytes.now) }
{
    let (len, rest) = u8_at(1, 32, bytes)?;
    let len = usize::from(len);
    if rest.len() < len {
        return Err(Stop::Other);
    }
    let (front, behind) = rest.split_at(len);
    match name_of(front) {
        Some(name) => Ok((name, behind)),
        None => Err(Stop::Other),
    }
}

// The name that 1 to 32 bytes are, if they are one.
fn name_of(bytes: &[u8]) -> Option<Name>
    requires { (1 ≤ length bytes.now) × (length bytes.now ≤ 32) }
    ensures { result ≡ (if are_name_bytes bytes.now then Some bytes.now else None) }
{
    Name::read(bytes).ok()
}

/// The identifier of an operation.
#[tactic(auto, unfolding(crate::specs::Reading::id_at))]
pub fn id_at(bytes: &[u8]) -> Result<(OpId, &[u8]), Stop>
    ensures { Gives (λ x. (x.0, x.1.now)) result (id_at bytes.now) }
{
    let (client, rest) = u32_at(1, MOST_CLIENTS, bytes)?;
    let (number, rest) = u64_at(1, MOST_NUMBER, rest)?;
    let (place, rest) = u16_at(0, MOST_UPDATES as u16 - 1, rest)?;
    let dot = Dot { client, number };
    Ok((OpId { dot, place }, rest))
}

/// The sum of a counter.
#[tactic(auto, unfolding(crate::specs::Reading::sum_at))]
pub fn sum_at(bytes: &[u8]) -> Result<(i128, &[u8]), Stop>
    ensures { Gives (λ x. (x.0, x.1.now)) result (sum_at bytes.now) }
{
    let (high, rest) = u64_at(0, u64::MAX, bytes)?;
    let (low, rest) = u64_at(0, u64::MAX, rest)?;
    let bits = u128::from(high) * 18_446_744_073_709_551_616 + u128::from(low);
    Ok((bits.cast_signed(), rest))
}

/// A write of a register, or that there is none.
#[tactic(auto, unfolding(crate::specs::Reading::last_at))]
pub fn last_at(bytes: &[u8]) -> Result<(Option<(Mark, RegisterOp)>, &[u8]), Stop>
    ensures { Gives (λ x. (x.0, x.1.now)) result (last_at bytes.now) }
{
    let (flag, rest) = u8_at(0, 1, bytes)?;
    if flag == 0 {
        return Ok((None, rest));
    }
    let (write, rest) = found!(write_at(rest));
    Ok((Some(write), rest))
}

// A write of a register.
#[tactic(auto, unfolding(crate::specs::Reading::write_at))]
fn write_at(bytes: &[u8]) -> Result<((Mark, RegisterOp), &[u8]), Stop>
    ensures { Gives (λ x. (x.0, x.1.now)) result (write_at bytes.now) }
{
    let (rank, rest) = u64_at(1, MOST_NUMBER, bytes)?;
    let (id, rest) = found!(id_at(rest));
    let (word, rest) = found!(name_at(rest));
    Ok(((Mark { rank, id }, RegisterOp { word }), rest))
}

/// A tally.
#[tactic(auto, unfolding(crate::specs::Reading::tally_at))]
pub fn tally_at(bytes: &[u8]) -> Result<(i64, &[u8]), Stop>
    ensures { Gives (λ x. (x.0, x.1.now)) result (tally_at bytes.now) }
{
    if bytes.len() < 8 {
        return Err(Stop::Other);
    }
    let (front, rest) = bytes.split_at(8);
    let count = i64::from_be_bytes([
        front[0], front[1], front[2], front[3], front[4], front[5], front[6], front[7],
    ]);
    if count == 0 {
        return Err(Stop::Other);
    }
    Ok((count, rest))
}

/// The place of a tally.
#[tactic(auto, unfolding(crate::specs::Reading::place_at))]
pub fn place_at(bytes: &[u8]) -> Result<(Place, &[u8]), Stop>
    ensures { Gives (λ x. (x.0, x.1.now)) result (place_at bytes.now) }
{
    let (name, rest) = found!(name_at(bytes));
    let (id, rest) = found!(id_at(rest));
    Ok((Place { name, id }, rest))
}

/// What a live put keeps, and nothing where it is not live.
#[tactic(auto, unfolding(crate::specs::Reading::kept_at))]
pub fn kept_at(live: bool, bytes: &[u8]) -> Result<(Option<Put>, &[u8]), Stop>
    ensures { Gives (λ x. (x.0, x.1.now)) result (kept_at live bytes.now) }
{
    if !live {
        return Ok((None, bytes));
    }
    let (put, rest) = found!(put_at(bytes));
    Ok((Some(put), rest))
}

// What a put keeps.
#[tactic(auto, unfolding(crate::specs::Reading::put_at))]
fn put_at(bytes: &[u8]) -> Result<(Put, &[u8]), Stop>
    ensures { Gives (λ x. (x.0, x.1.now)) result (put_at bytes.now) }
{
    let (rank, rest) = u64_at(1, MOST_NUMBER, bytes)?;
    let (word, rest) = found!(name_at(rest));
    Ok((Put { rank, word }, rest))
}
