// A centre's log of transactions that are not folded yet. `append OBJECTS COUNT` puts so many of one client in, each with
// an operation on one of so many counters; `alias` then gives each one stamp more, `chain` looks as often for the
// operations of a counter, `mine` as often for the client's last number a little behind the newest, `take_within`
// takes half of them out, and `prune` copies and takes out all of them in a hundred parts. The number is how many were
// found, or the last number.
ghost use Rattle.std.specs.Prelude.{◌≡◌, ◌≢◌, ◌+◌, OnOk, length};
ghost use Rattle.benchmarks.specs.Logs.{IsBelow};

use crate::centre::add_one;
use crate::fault::Fault;
use crate::sets::word_of;
use ids_core::{Dot, NoMemory, ObjectId, Sort};
use op_log::Log;
use std::alloc::Global;
use tx_core::Record;
use vv_core::{Stamp, Vector};

// In how many parts a log is pruned.
const PARTS: u64 = 100;

/// What is found, for the form, the number of counters and the count; nothing where they are of no form.
pub fn worked(
    alloc: Global,
    form: &str,
    objects: &str,
    count: &str,
) -> Option<Result<i128, Fault>> {
    let Ok(objects) = objects.parse::<u32>() else {
        return None;
    };
    let Ok(count) = count.parse::<u32>() else {
        return None;
    };
    if objects == 0 || count == 0 {
        return None;
    }
    match form {
        "append" => Some(appended(alloc, objects, count)),
        "alias" => Some(aliased(alloc, objects, count)),
        "chain" => Some(chained(alloc, objects, count)),
        "mine" => Some(asked(alloc, objects, count)),
        "take_within" => Some(taken(alloc, objects, count)),
        "prune" => Some(pruned(alloc, objects, count)),
        _ => None,
    }
}

// The counter of a number, another one for each below 456,976.
fn counter_of(number: u32) -> Result<ObjectId, Fault> {
    Ok(ObjectId {
        sort: Sort::Counter,
        name: word_of(number)?,
    })
}

// The vector with so many records of centre 1.
fn at(seq: u32) -> Vector
    ensures { length result ≡ 2 }
{
    Vector::zero(2).raise(&Stamp { centre: 1, seq })
}

// Puts the transaction of a number in, which is above all others.
#[tactic(auto, using(crate::proofs::Logs::fresh, crate::proofs::Logs::below_more))]
fn append_one(alloc: Global, log: &mut Log, number: u32, object: &ObjectId) -> Result<(), NoMemory>
    requires { IsBelow number log.old.items }
    ensures { OnOk result (IsBelow (number + 1) log.new.items) }
{
    let stamp = Stamp {
        centre: 1,
        seq: number,
    };
    let deps = Vector::zero(2);
    let tx = add_one(alloc, u64::from(number), object)?;
    log.append(&Record { stamp, deps, tx })?;
    Ok(())
}

// A log of so many transactions.
fn log_of(alloc: Global, objects: u32, count: u32) -> Result<Log, Fault>
    requires { objects ≢ 0 }
{
    let mut log = Log::new(alloc)?;
    for number in 0..count {
        let object = counter_of(number % objects)?;
        append_one(alloc, &mut log, number, &object)?;
    }
    Ok(log)
}

// How many operations on one counter a log of so many transactions has.
fn appended(alloc: Global, objects: u32, count: u32) -> Result<i128, Fault>
    requires { objects ≢ 0 }
{
    let log = log_of(alloc, objects, count)?;
    Ok(chain(&log, 0)? as i128)
}

// How many operations on the counter of a number a log has.
fn chain(log: &Log, number: u32) -> Result<usize, Fault> {
    Ok(log.chain(&counter_of(number)?).len())
}

// How many transactions of such a log were given one more stamp.
fn aliased(alloc: Global, objects: u32, count: u32) -> Result<i128, Fault>
    requires objects { objects ≢ 0 }
    requires count { count ≢ 0 }
{
    let mut log = log_of(alloc, objects, count)?;
    let mut found: u64 = 0;
    for turn in 0..count {
        if alias(&mut log, turn)? {
            found = found.saturating_add(1);
        }
    }
    Ok(i128::from(found))
}

// Gives the transaction of a number one stamp more; whether it is there.
fn alias(log: &mut Log, number: u32) -> Result<bool, NoMemory> {
    let dot = Dot {
        client: 1,
        number: u64::from(number),
    };
    let stamp = Stamp {
        centre: 2,
        seq: number,
    };
    log.alias(&dot, &stamp)
}

// The most operations on one counter of such a log.
fn chained(alloc: Global, objects: u32, count: u32) -> Result<i128, Fault>
    requires objects { objects ≢ 0 }
{
    let log = log_of(alloc, objects, count)?;
    let mut most = 0;
    for turn in 0..u64::from(count) {
        most = chain(&log, (turn % u64::from(objects)) as u32)?.max(most);
    }
    Ok(most as i128)
}

// The client's last number ten transactions before the newest of such a log.
fn asked(alloc: Global, objects: u32, count: u32) -> Result<i128, Fault>
    requires objects { objects ≢ 0 }
{
    let log = log_of(alloc, objects, count)?;
    Ok(i128::from(asked_for(&log, count)))
}

// The same of a log, which is asked so many times.
fn asked_for(log: &Log, count: u32) -> u64 {
    let here = at(count.saturating_sub(10));
    let mut last = 0;
    for _ in 0..count {
        last = log.mine(1, &here);
    }
    last
}

// How many transactions the first half of such a log has.
fn taken(alloc: Global, objects: u32, count: u32) -> Result<i128, Fault>
    requires { objects ≢ 0 }
{
    let mut log = log_of(alloc, objects, count)?;
    Ok(i128::from(log.take_within(&at(count / 2))))
}

// How many transactions such a log had, copied and taken out in so many parts.
fn pruned(alloc: Global, objects: u32, count: u32) -> Result<i128, Fault>
    requires { objects ≢ 0 }
{
    let mut log = log_of(alloc, objects, count)?;
    let mut gone: u64 = 0;
    for part in 1..PARTS + 1 {
        let base = at((u64::from(count) * part / PARTS) as u32);
        gone = gone.saturating_add(prune(&mut log, &base)?);
    }
    Ok(i128::from(gone))
}

// How many transactions were copied and taken out up to a vector, 0 where these are not as many.
fn prune(log: &mut Log, base: &Vector) -> Result<u64, NoMemory> {
    let copied = log.within(base)?.len() as u64;
    if copied == log.take_within(base) {
        return Ok(copied);
    }
    Ok(0)
}
