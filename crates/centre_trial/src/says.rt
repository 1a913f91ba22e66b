// Whether two answers are the same. Of the state of an object the sum of a counter is compared, and of records their stamps,
// transactions and hops.
use crate::fault::Fault;
use dc_talk::{Say, Sent};
use tx_core::State;
use vv_core::Vector;

// Two lists of answers have to be the same.
pub fn all_same(ones: &[Say], others: &[Say]) -> Result<(), Fault> {
    if ones.len() != others.len() {
        return Err(Fault::Differs);
    }
    for (one, other) in ones.iter().zip(others) {
        same(one, other)?;
    }
    Ok(())
}

// Two answers have to be the same.
pub fn same(one: &Say, other: &Say) -> Result<(), Fault> {
    let numbers = numbers(one) == numbers(other);
    let vectors = vector_of(one) == vector_of(other);
    let sums = sum_of(one) == sum_of(other);
    if numbers && vectors && sums && same_records(records_of(one), records_of(other)) {
        Ok(())
    } else {
        Err(Fault::Differs)
    }
}

// Which answer it is, and the numbers in it.
fn numbers(say: &Say) -> [u64; 4] {
    match say {
        Say::Misfit => [1, 0, 0, 0],
        Say::Down => [2, 0, 0, 0],
        Say::Lacks { centre, need, have } => [3, u64::from(*centre), *need, *have],
        Say::Welcome { through } => [4, *through, 0, 0],
        Say::Snap {
            vector: _,
            mine,
            top,
        } => [5, *mine, *top, 0],
        Say::Pruned { centre, base, at } => [6, u64::from(*centre), *base, *at],
        Say::Object { state: _ } => [7, 0, 0, 0],
        Say::Changes { tail } => [24, tail.as_slice().len() as u64, 0, 0],
        Say::Known { through } => [8, *through, 0, 0],
        Say::OutOfOrder { have } => [9, *have, 0, 0],
        Say::Full { limit } => [10, *limit, 0, 0],
        Say::Stamped { stamp } => [11, u64::from(stamp.centre), u64::from(stamp.seq), 0],
        Say::Trimmed { from } => [12, *from, 0, 0],
        Say::Records { list: _ } => [13, 0, 0, 0],
        Say::Old { have } => [14, *have, 0, 0],
        Say::Gap { have } => [15, *have, 0, 0],
        Say::Waits { centre, need, have } => [16, u64::from(*centre), *need, *have],
        Say::Orphan { number, have } => [17, *number, *have, 0],
        Say::Applied { fresh } => [18, u64::from(*fresh), 0, 0],
        Say::Vector { vector: _ } => [19, 0, 0, 0],
        Say::Learned { fresh } => [20, u64::from(*fresh), 0, 0],
        Say::Base {
            vector: _,
            folded,
            trimmed,
        } => [21, *folded, *trimmed, 0],
        Say::Stopped => [22, 0, 0, 0],
        Say::Started => [23, 0, 0, 0],
    }
}

// The vector in an answer, or one of zeros.
fn vector_of(say: &Say) -> Vector {
    match say {
        Say::Snap {
            vector,
            mine: _,
            top: _,
        } => *vector,
        Say::Vector { vector } => *vector,
        Say::Base {
            vector,
            folded: _,
            trimmed: _,
        } => *vector,
        _ => Vector::zero(2),
    }
}

// The sum of the counter in an answer, or 0.
fn sum_of(say: &Say) -> i128 {
    match say {
        Say::Object { state } => match state.as_state() {
            State::Counter(sum) => sum.value(),
            _ => 0,
        },
        _ => 0,
    }
}

// The records in an answer.
fn records_of(say: &Say) -> &[Sent] {
    match say {
        Say::Records { list } => list.as_slice(),
        _ => &[],
    }
}

// Whether two lists of records are the same.
fn same_records(ones: &[Sent], others: &[Sent]) -> bool {
    if ones.len() != others.len() {
        return false;
    }
    for (one, other) in ones.iter().zip(others) {
        if !same_record(one, other) {
            return false;
        }
    }
    true
}

// Whether two records have the same stamp and hops, and are of the same transaction.
fn same_record(one: &Sent, other: &Sent) -> bool {
    let (item, other_item) = (one.item.as_record(), other.item.as_record());
    one.hops == other.hops && item.stamp == other_item.stamp && item.tx.dot == other_item.tx.dot
}
