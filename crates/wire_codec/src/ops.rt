// Fields that are updates.
ghost use Rattle.std.specs.Prelude.{◌≡◌, ◌≤◌};
ghost use Rattle.std.specs.Int.{w64, cast_signed};
ghost use Rattle.wire_codec.specs.Fields.{read, number_where};
ghost use Rattle.wire_codec.specs.Grammar.{sort_of, first_code, last_code, is_delta};
ghost use Rattle.wire_codec.specs.Reading.{Gives, inc_at, write_at, add_at, remove_at, put_at, erase_at, op_at, update_at, updates_at};

use crate::fault::{Fault, Stop};
use crate::names::name_at;
use crate::numbers::u8_at;
use crate::tags::tags_at;
use ids_core::{ObjectId, Sort};
use std::alloc::Global;
use tx_core::{Op, Update, Updates, is_small_delta};

// The fewest bytes of an update: a kind, a name of one byte, a code, and a word of one byte.
const LEAST_BYTES: usize = 6;

/// So many updates. It takes no more memory at once than the bytes that are there have room for.
pub fn updates_at(alloc: Global, count: u16, bytes: &[u8]) -> Result<(Updates, &[u8]), Stop>
    ensures { Gives (λ x. (x.0, x.1.now)) result (updates_at count bytes.now) }
{
    let room = usize::from(count).min(bytes.len() / LEAST_BYTES);
    let mut list = Vec::with_capacity(alloc, room)?;
    let mut rest = bytes;
    for _ in 0..count {
        let (update, behind) = found!(update_at(alloc, rest));
        list.push(update)?;
        rest = behind;
    }
    Ok((Updates::from_vec(list), rest))
}

// An update.
#[tactic(auto, unfolding(crate::specs::Reading::update_at))]
fn update_at(alloc: Global, bytes: &[u8]) -> Result<(Update, &[u8]), Stop>
    ensures { Gives (λ x. (x.0, x.1.now)) result (update_at bytes.now) }
{
    let (sort, rest) = u8_at(1, 4, bytes)?;
    let sort = sort_of(sort);
    let (name, rest) = found!(name_at(rest));
    let (code, rest) = u8_at(first_code(sort), last_code(sort), rest)?;
    let (op, rest) = found!(op_at(alloc, code, rest));
    let object = ObjectId { sort, name };
    Ok((Update { object, op }, rest))
}

fn sort_of(byte: u8) -> Sort
    ensures { result ≡ sort_of byte }
{
    match byte {
        1 => Sort::Counter,
        2 => Sort::Register,
        3 => Sort::Set,
        _ => Sort::Map,
    }
}

fn first_code(sort: Sort) -> u8
    ensures { result ≡ first_code sort }
{
    match sort {
        Sort::Counter => 1,
        Sort::Register => 2,
        Sort::Set => 3,
        Sort::Map => 5,
    }
}

fn last_code(sort: Sort) -> u8
    ensures { result ≡ last_code sort }
{
    match sort {
        Sort::Counter => 1,
        Sort::Register => 2,
        Sort::Set => 4,
        Sort::Map => 6,
    }
}

// What follows a code.
#[tactic(auto, unfolding(crate::specs::Reading::op_at))]
fn op_at(alloc: Global, code: u8, bytes: &[u8]) -> Result<(Op, &[u8]), Stop>
    ensures { Gives (λ x. (x.0, x.1.now)) result (op_at code bytes.now) }
{
    match code {
        1 => inc_at(bytes),
        2 => write_at(bytes),
        3 => add_at(alloc, bytes),
        4 => remove_at(alloc, bytes),
        5 => put_at(alloc, bytes),
        _ => erase_at(alloc, bytes),
    }
}

#[tactic(auto, unfolding(crate::specs::Reading::inc_at))]
fn inc_at(bytes: &[u8]) -> Result<(Op, &[u8]), Stop>
    ensures { Gives (λ x. (x.0, x.1.now)) result (inc_at bytes.now) }
{
    if bytes.len() < 8 {
        return Err(Stop::Fault(Fault::Short));
    }
    let (front, rest) = bytes.split_at(8);
    let delta = i64::from_be_bytes([
        front[0], front[1], front[2], front[3], front[4], front[5], front[6], front[7],
    ]);
    if !is_small_delta(delta) {
        return Err(Stop::Fault(Fault::Bad(bytes.len())));
    }
    Ok((Op::Inc { delta }, rest))
}

#[tactic(auto, unfolding(crate::specs::Reading::write_at))]
fn write_at(bytes: &[u8]) -> Result<(Op, &[u8]), Stop>
    ensures { Gives (λ x. (x.0, x.1.now)) result (write_at bytes.now) }
{
    let (word, rest) = found!(name_at(bytes));
    Ok((Op::Write { word }, rest))
}

#[tactic(auto, unfolding(crate::specs::Reading::add_at))]
fn add_at(alloc: Global, bytes: &[u8]) -> Result<(Op, &[u8]), Stop>
    ensures { Gives (λ x. (x.0, x.1.now)) result (add_at bytes.now) }
{
    let (word, rest) = found!(name_at(bytes));
    let (over, rest) = found!(tags_at(alloc, rest));
    Ok((Op::Add { word, over }, rest))
}

#[tactic(auto, unfolding(crate::specs::Reading::remove_at))]
fn remove_at(alloc: Global, bytes: &[u8]) -> Result<(Op, &[u8]), Stop>
    ensures { Gives (λ x. (x.0, x.1.now)) result (remove_at bytes.now) }
{
    let (word, rest) = found!(name_at(bytes));
    let (over, rest) = found!(tags_at(alloc, rest));
    Ok((Op::Remove { word, over }, rest))
}

#[tactic(auto, unfolding(crate::specs::Reading::put_at))]
fn put_at(alloc: Global, bytes: &[u8]) -> Result<(Op, &[u8]), Stop>
    ensures { Gives (λ x. (x.0, x.1.now)) result (put_at bytes.now) }
{
    let (key, rest) = found!(name_at(bytes));
    let (word, rest) = found!(name_at(rest));
    let (over, rest) = found!(tags_at(alloc, rest));
    Ok((Op::Put { key, word, over }, rest))
}

#[tactic(auto, unfolding(crate::specs::Reading::erase_at))]
fn erase_at(alloc: Global, bytes: &[u8]) -> Result<(Op, &[u8]), Stop>
    ensures { Gives (λ x. (x.0, x.1.now)) result (erase_at bytes.now) }
{
    let (key, rest) = found!(name_at(bytes));
    let (over, rest) = found!(tags_at(alloc, rest));
    Ok((Op::Erase { key, over }, rest))
}
