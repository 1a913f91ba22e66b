// The states of objects up to a vector.
ghost use Rattle.std.specs.Prelude.{◌≤◌, length, IfOk};
ghost use Rattle.ids_core.specs.declared.limits.TheConstants.{MOST_UPDATES};

use check_point::Point;
use ids_core::{Dot, NoMemory, ObjectId};
use samples::{counter, inc_tx, pair};
use std::alloc::Global;
use std::process::Abort;
use std::test::Fail;
use tx_core::{Tx, Value};
use vv_core::Vector;

// Folds a transaction, where the vector covers that of the point, and once more where memory was refused,
// which leaves the point as it was; whether it did.
fn fold(alloc: Global, point: &mut Point, to: &Vector, tx: Tx) -> Result<bool, NoMemory>
    requires { length tx.updates ≤ MOST_UPDATES }
{
    let from = point.vector();
    if to.width() != from.width() || !to.covers(&from) {
        return Ok(false);
    }
    let txs = [tx];
    let folded = point.folded();
    if point.advance(alloc, to, &txs).is_ok() {
        return Ok(true);
    }
    let is_kept = point.vector() == from && point.folded() == folded;
    point.advance(alloc, to, &txs)?;
    Ok(is_kept)
}

// The transaction of that number of client 7 that adds two deltas to a counter.
fn tx_of(alloc: Global, number: u64, object: &ObjectId, delta: i64) -> Result<Tx, NoMemory>
    ensures { IfOk result (λ tx. length tx.updates ≤ MOST_UPDATES) }
{
    let dot = Dot { client: 7, number };
    inc_tx(alloc, dot, 1, pair(0, 0), object, &[delta, 1])
}

// Folds the transaction of that number, which adds a delta and then 1 to a counter; whether it was folded.
fn fold_one(
    alloc: Global,
    point: &mut Point,
    to: &Vector,
    number: u64,
    object: &ObjectId,
    delta: i64,
) -> Result<bool, NoMemory> {
    let tx = tx_of(alloc, number, object, delta)?;
    fold(alloc, point, to, tx)
}

// Whether a value is this number.
fn is_number(value: &Value, sum: i128) -> bool {
    match value {
        Value::Number(number) => *number == sum,
        _ => false,
    }
}

// Whether the counter has this sum at the point.
fn has(alloc: Global, point: &Point, object: &ObjectId, sum: i128) -> Result<bool, NoMemory> {
    let state = point.state(alloc, object)?;
    Ok(is_number(&state.value(alloc)?, sum))
}

// Whether the point has what three transactions of client 7 leave.
fn is_whole(point: &Point) -> bool {
    point.vector() == pair(1, 3)
        && point.number(7) == 3
        && point.number(6) == 0
        && point.folded() == 3
}

// Folds three transactions on two counters, and looks at what they leave.
fn fold_all(
    rt: &impl Abort,
    alloc: Global,
    point: &mut Point,
    a: &ObjectId,
    b: &ObjectId,
) -> Result<(), NoMemory> {
    assert!(rt; fold_one(alloc, point, &pair(1, 0), 1, a, 4)?);
    assert!(rt; fold_one(alloc, point, &pair(1, 2), 2, b, 6)?);
    assert!(rt; fold_one(alloc, point, &pair(1, 3), 3, a, 1)?);
    assert!(rt; is_whole(point));
    assert!(rt; has(alloc, point, a, 7)?);
    assert!(rt; has(alloc, point, b, 7)?);
    Ok(())
}

#[test]
fn a_point_adds_up(rt: HostRuntime) -> Result<(), Fail> {
    let (a, b) = (counter("a")?, counter("b")?);
    let mut point = Point::new(rt.alloc(), 2)?;
    Ok(fold_all(&rt, rt.alloc(), &mut point, &a, &b)?)
}

#[test]
fn a_point_is_made_again_of_its_parts(rt: HostRuntime) -> Result<(), Fail> {
    let (a, b) = (counter("a")?, counter("b")?);
    let mut point = Point::new(rt.alloc(), 2)?;
    fold_all(&rt, rt.alloc(), &mut point, &a, &b)?;
    let again = Point::of_parts(rt.alloc(), point.parts(rt.alloc())?)?;
    assert!(rt; is_whole(&again));
    assert!(rt; has(rt.alloc(), &again, &a, 7)? && has(rt.alloc(), &again, &b, 7)?);
    Ok(())
}
