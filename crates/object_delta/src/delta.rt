// The operations on an object that came between two vectors, where they are few.
ghost use Rattle.std.specs.Prelude.{◌≡◌, ◌≤◌, length, drop, filter, take, IfOk, IfSome};
ghost use Rattle.op_log.specs.Logs.{chain_of};
ghost use Rattle.point_log.specs.LogSplits.{ops_in};
ghost use Rattle.point_log.specs.Served.{is_since, AreInside};
ghost use Rattle.object_delta.specs.Deltas.{ops_told, if_few};
ghost use Rattle.object_delta.specs.Passed.{ArePassed};

use crate::passed::{PassedObjects, pass, passed_before};
use dc_talk::MOST_CHANGES;
use ids_core::{NoMemory, ObjectId};
use op_log::{Cell, Log};
use std::alloc::Global;
use tx_core::{SharedList, Tail};
use vv_core::Vector;

/// The operations on an object in the transactions of a log that have a stamp within a vector and none within one
/// before, in the order of the log, where they are at most `MOST_CHANGES`; else `None`. Only want of memory is an
/// `Err`. Time: that of the object's operations behind those that are known to be within the vector before. What the
/// call finds of them is kept for the next one, unless memory is refused.
pub fn changes(
    alloc: Global,
    log: &Log,
    kept: &mut PassedObjects,
    object: &ObjectId,
    before: &Vector,
    at: &Vector,
) -> Result<Option<Tail>, NoMemory>
    requires wide { length at.now ≡ length before.now }
    requires passed { ArePassed (length before.now) log.now kept.old.entries }
    ensures told { IfOk result (λ tail. tail ≡ if_few (ops_told log.now object.now before.now at.now)) }
    ensures passed { ArePassed (length before.now) log.now kept.new.entries }
{
    let cells = log.chain(object);
    let done = passed_before(log, kept, object, before);
    let tail = told_since(alloc, log, &cells[done..], before, at)?;
    pass(log, kept, object, before, done);
    Ok(tail)
}

// The operations whose transaction has a stamp within the vector, and none within the one before, where they are
// few.
fn told_since(
    alloc: Global,
    log: &Log,
    cells: &[Cell],
    before: &Vector,
    at: &Vector,
) -> Result<Option<Tail>, NoMemory>
    ensures { IfOk result (λ tail. tail ≡ if_few (ops_in (filter (is_since before.now at.now log.now.items) cells.now))) }
{
    let mut ops = Vec::new(alloc);
    'cells: for cell in cells {
        if log.since(cell.tx, before, at) {
            if ops.len() == MOST_CHANGES {
                return Ok(None);
            }
            ops.push((cell.mark, cell.op.copy()?))?;
        }
    }
    Ok(Some(SharedList::from_vec(alloc, ops)?))
}
