// Fields that are tags.
ghost use Rattle.std.specs.Prelude.{◌≡◌, None, Some};
ghost use Rattle.std.specs.Int.{w16};
ghost use Rattle.wire_codec.specs.Fields.{read, number_where};
ghost use Rattle.wire_codec.specs.Grammar.{is_next, is_place};
ghost use Rattle.wire_codec.specs.Reading.{Gives, tag_at, tags_after_at, tags_at};

use crate::fault::{Fault, Stop};
use crate::numbers::{is_within, u16_at, u32_at, u64_at};
use ids_core::{Dot, MOST_CLIENTS, MOST_NUMBER, MOST_TAGS, MOST_UPDATES, OpId, Tags};
use std::alloc::Global;

// How many bytes a tag has.
const TAG_BYTES: usize = 14;

/// Tags, behind their number.
#[tactic(auto, unfolding(crate::specs::Reading::tags_at))]
pub fn tags_at(alloc: Global, bytes: &[u8]) -> Result<(Tags, &[u8]), Stop>
    ensures { Gives (λ x. (x.0, x.1.now)) result (tags_at bytes.now) }
{
    let (count, rest) = u16_at(0, MOST_TAGS as u16, bytes)?;
    let (list, rest) = list_at(alloc, count, rest)?;
    match Tags::of(list) {
        Ok(tags) => Ok((tags, rest)),
        Err(_) => unreachable!(),
    }
}

// So many tags. It takes no more memory than the bytes that are there have room for.
fn list_at(alloc: Global, count: u16, bytes: &[u8]) -> Result<(Vec<OpId>, &[u8]), Stop>
    ensures { Gives (λ x. (x.0.items, x.1.now)) result (tags_after_at count None bytes.now) }
{
    let room = usize::from(count).min(bytes.len() / TAG_BYTES);
    let mut list = Vec::with_capacity(alloc, room)?;
    let mut last = None;
    let mut rest = bytes;
    for _ in 0..count {
        let (id, behind) = tag_at(last, rest)?;
        list.push(id)?;
        last = Some(id);
        rest = behind;
    }
    Ok((list, rest))
}

// A tag behind another.
#[tactic(auto, unfolding(crate::specs::Reading::tag_at))]
fn tag_at(last: Option<OpId>, bytes: &[u8]) -> Result<(OpId, &[u8]), Stop>
    ensures { Gives (λ x. (x.0, x.1.now)) result (tag_at last bytes.now) }
{
    let (client, rest) = u32_at(1, MOST_CLIENTS, bytes)?;
    let (number, rest) = u64_at(1, MOST_NUMBER, rest)?;
    let dot = Dot { client, number };
    let (place, rest) = place_at(last, dot, rest)?;
    Ok((OpId { dot, place }, rest))
}

// The place of a tag behind another.
fn place_at(last: Option<OpId>, dot: Dot, bytes: &[u8]) -> Result<(u16, &[u8]), Stop>
    ensures { Gives (λ x. (x.0, x.1.now)) result (read (number_where w16 (is_place last dot.client dot.number)) bytes.now) }
{
    if bytes.len() < 2 {
        return Err(Stop::Fault(Fault::Short));
    }
    let (front, rest) = bytes.split_at(2);
    let place = u16::from_be_bytes([front[0], front[1]]);
    if !is_place(last, dot, place) {
        return Err(Stop::Fault(Fault::Bad(bytes.len())));
    }
    Ok((place, rest))
}

fn is_place(last: Option<OpId>, dot: Dot, place: u16) -> bool
    ensures { result ≡ is_place last dot.client dot.number place }
{
    is_within(0, MOST_UPDATES - 1, u64::from(place)) && is_next(last, OpId { dot, place })
}

fn is_next(last: Option<OpId>, id: OpId) -> bool
    ensures { result ≡ is_next last id }
{
    match last {
        None => true,
        Some(last) => last < id,
    }
}
