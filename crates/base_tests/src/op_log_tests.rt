// The log of a centre.
ghost use Rattle.std.specs.Prelude.{◌≡◌, ◌≤◌, IfOk, length};

use ids_core::{Dot, NoMemory, ObjectId};
use op_log::{Cell, Log};
use samples::{counter, inc_tx, pair};
use std::alloc::Global;
use std::process::Abort;
use std::test::Fail;
use tx_core::Record;
use vv_core::{Stamp, Vector};

// The record that adds 1 to a counter, by the transaction of a number of client 1.
fn record(alloc: Global, number: u64, stamp: Stamp, object: &ObjectId) -> Result<Record, NoMemory>
    ensures dot { IfOk result (λ r. r.tx.dot ≡ record { client = 1; number = number }) }
    ensures few { IfOk result (λ r. length r.tx.updates ≤ 256) }
{
    let dot = Dot { client: 1, number };
    let snap = pair(0, 0);
    let tx = inc_tx(alloc, dot, number, snap, object, &[1])?;
    Ok(Record {
        stamp,
        deps: snap,
        tx,
    })
}

fn stamp(centre: u8, seq: u32) -> Stamp {
    Stamp { centre, seq }
}

// The log of three transactions, the first and the last on one counter.
fn filled(alloc: Global, a: &ObjectId, b: &ObjectId) -> Result<Log, NoMemory> {
    let mut log = Log::new(alloc)?;
    log.append(&record(alloc, 1, stamp(1, 1), a)?)?;
    log.append(&record(alloc, 2, stamp(1, 2), b)?)?;
    log.append(&record(alloc, 3, stamp(2, 1), a)?)?;
    Ok(log)
}

// Whether the cells are of the transactions of these numbers.
fn are(cells: &[Cell], numbers: &[u64]) -> bool {
    cells.len() == numbers.len() && cells.iter().zip(numbers).all(|(cell, n)| cell.tx == *n)
}

// Has a log of three transactions tell its chains, and which of the transactions are within a vector.
fn show(rt: &impl Abort, log: &Log, a: &ObjectId, b: &ObjectId, c: &ObjectId) {
    assert!(rt; are(log.chain(a), &[0, 2]));
    assert!(rt; are(log.chain(b), &[1]));
    assert!(rt; are(log.chain(c), &[]));
    assert!(rt; log.inside(0, &pair(1, 0)));
    assert!(rt; !log.inside(2, &pair(1, 0)));
}

#[test]
fn chains_are_those_of_the_objects(rt: HostRuntime) -> Result<(), Fail> {
    let (a, b, c) = (counter("a")?, counter("b")?, counter("c")?);
    let log = filled(rt.alloc(), &a, &b)?;
    show(&rt, &log, &a, &b, &c);
    Ok(())
}

// How many transactions of a log are within a vector.
fn within(log: &Log, vector: &Vector) -> Result<usize, NoMemory> {
    Ok(log.within(vector)?.len())
}

// Takes the first transaction from a log of three.
fn take_one(rt: &impl Abort, log: &mut Log, a: &ObjectId, b: &ObjectId) -> Result<(), NoMemory> {
    assert!(rt; within(log, &pair(1, 0))? == 1);
    assert!(rt; log.take_within(&pair(1, 0)) == 1);
    assert!(rt; are(log.chain(a), &[2]));
    assert!(rt; are(log.chain(b), &[1]));
    Ok(())
}

#[test]
fn taken_transactions_leave_their_chains(rt: HostRuntime) -> Result<(), Fail> {
    let (a, b) = (counter("a")?, counter("b")?);
    let mut log = filled(rt.alloc(), &a, &b)?;
    Ok(take_one(&rt, &mut log, &a, &b)?)
}

// Gives the third transaction of a log one more stamp.
fn add_stamp(rt: &impl Abort, log: &mut Log) -> Result<(), NoMemory> {
    let third = Dot {
        client: 1,
        number: 3,
    };
    let none = Dot {
        client: 2,
        number: 3,
    };
    assert!(rt; log.mine(1, &pair(1, 0)) == 1);
    assert!(rt; log.mine(2, &pair(9, 9)) == 0);
    assert!(rt; log.alias(&third, &stamp(1, 3))?);
    assert!(rt; !log.alias(&none, &stamp(1, 4))?);
    Ok(())
}

// Takes all from the log that has the third transaction with one more stamp.
fn take_all(rt: &impl Abort, log: &mut Log, a: &ObjectId) {
    assert!(rt; log.inside(2, &pair(3, 0)));
    assert!(rt; log.mine(1, &pair(3, 0)) == 3);
    assert!(rt; log.take_within(&pair(3, 0)) == 3);
    assert!(rt; are(log.chain(a), &[]));
}

#[test]
fn another_stamp_counts_too(rt: HostRuntime) -> Result<(), Fail> {
    let (a, b) = (counter("a")?, counter("b")?);
    let mut log = filled(rt.alloc(), &a, &b)?;
    add_stamp(&rt, &mut log)?;
    take_all(&rt, &mut log, &a);
    Ok(())
}

#[test]
fn a_log_is_made_again_of_its_parts(rt: HostRuntime) -> Result<(), Fail> {
    let (a, b, c) = (counter("a")?, counter("b")?, counter("c")?);
    let log = filled(rt.alloc(), &a, &b)?;
    let again = Log::of_parts(rt.alloc(), log.parts()?)?;
    show(&rt, &again, &a, &b, &c);
    Ok(())
}
