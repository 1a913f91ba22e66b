// Tallies of sets and of maps.
ghost use Rattle.std.specs.Prelude.{◌≡◌};
ghost use Rattle.state_codec.specs.Reading.{Gives, member_at, entry_at, times_at, list_at};

use crate::fields::{kept_at, place_at, tally_at};
use crate::numbers::u64_at;
use crate::stop::Stop;
use obj_map::Put;
use std::alloc::Global;
use tally_core::{Cell, Place, ascend};

/// The tallies of a set, behind their number.
#[tactic(auto, unfolding(crate::specs::Reading::list_at))]
pub fn members_at(alloc: Global, bytes: &[u8]) -> Result<(Vec<(Place, Cell<()>)>, &[u8]), Stop>
    ensures { Gives (λ x. (x.0.items, x.1.now)) result (list_at member_at bytes.now) }
{
    let (count, rest) = u64_at(0, u64::MAX, bytes)?;
    let (members, rest) = found!(some_members_at(alloc, count, rest));
    if !ascend(&members) {
        return Err(Stop::Other);
    }
    Ok((members, rest))
}

// So many tallies of a set.
fn some_members_at(
    alloc: Global,
    count: u64,
    bytes: &[u8],
) -> Result<(Vec<(Place, Cell<()>)>, &[u8]), Stop>
    ensures { Gives (λ x. (x.0.items, x.1.now)) result (times_at member_at count bytes.now) }
{
    let mut list = Vec::new(alloc);
    let mut rest = bytes;
    for _ in 0..count {
        let (member, behind) = found!(member_at(rest));
        list.push(member)?;
        rest = behind;
    }
    Ok((list, rest))
}

// A tally of a set.
#[tactic(auto, unfolding(crate::specs::Reading::member_at))]
fn member_at(bytes: &[u8]) -> Result<((Place, Cell<()>), &[u8]), Stop>
    ensures { Gives (λ x. (x.0, x.1.now)) result (member_at bytes.now) }
{
    let (place, rest) = found!(place_at(bytes));
    let (count, rest) = tally_at(rest)?;
    let kept = if 0 < count { Some(()) } else { None };
    Ok(((place, Cell { count, kept }), rest))
}

/// The tallies of a map, behind their number.
#[tactic(auto, unfolding(crate::specs::Reading::list_at))]
pub fn entries_at(alloc: Global, bytes: &[u8]) -> Result<(Vec<(Place, Cell<Put>)>, &[u8]), Stop>
    ensures { Gives (λ x. (x.0.items, x.1.now)) result (list_at entry_at bytes.now) }
{
    let (count, rest) = u64_at(0, u64::MAX, bytes)?;
    let (entries, rest) = found!(some_entries_at(alloc, count, rest));
    if !ascend(&entries) {
        return Err(Stop::Other);
    }
    Ok((entries, rest))
}

// So many tallies of a map.
fn some_entries_at(
    alloc: Global,
    count: u64,
    bytes: &[u8],
) -> Result<(Vec<(Place, Cell<Put>)>, &[u8]), Stop>
    ensures { Gives (λ x. (x.0.items, x.1.now)) result (times_at entry_at count bytes.now) }
{
    let mut list = Vec::new(alloc);
    let mut rest = bytes;
    for _ in 0..count {
        let (entry, behind) = found!(entry_at(rest));
        list.push(entry)?;
        rest = behind;
    }
    Ok((list, rest))
}

// A tally of a map.
#[tactic(auto, unfolding(crate::specs::Reading::entry_at))]
fn entry_at(bytes: &[u8]) -> Result<((Place, Cell<Put>), &[u8]), Stop>
    ensures { Gives (λ x. (x.0, x.1.now)) result (entry_at bytes.now) }
{
    let (place, rest) = found!(place_at(bytes));
    let (count, rest) = tally_at(rest)?;
    let (kept, rest) = found!(kept_at(0 < count, rest));
    Ok(((place, Cell { count, kept }), rest))
}
