// What a point and a log tell of the records that they stand for, and how both go on.
ghost use Rattle.std.specs.Prelude.{◌≡◌, ◌≤◌, ◌+◌, List, true, false, map, flat_map, filter, length, All, IfOk, OnOk, OnErr};
ghost use Rattle.ids_core.specs.declared.limits.TheConstants.{MOST_UPDATES};
ghost use Rattle.vv_core.specs.Vectors.{Covers};
ghost use Rattle.tx_core.specs.declared.tx.Record.{Record as RecordOf};
ghost use Rattle.tx_core.specs.States.{fold_of};
ghost use Rattle.op_log.specs.Logs.{is_inside_at, has_dot, within_of, left_of};
ghost use Rattle.check_point.specs.Points.{HasFewUpdates};
ghost use Rattle.point_log.specs.LogSplits.{txs_of, ops_in};
ghost use Rattle.point_log.specs.StandFor.{StandFor, state_told, mine_told, with_one};

use check_point::Point;
use ids_core::{NoMemory, ObjectId};
use op_log::{Cell, Log};
use std::alloc::Global;
use tx_core::{Record, State};
use vv_core::Vector;

/// The state of an object at a vector: that of the point, with the operations of the object's chain whose
/// transaction has a stamp within the vector. Time: a copy of the state, and the chain.
pub fn state_at(
    alloc: Global,
    point: &Point,
    log: &Log,
    object: &ObjectId,
    at: &Vector,
) -> Result<State, NoMemory>
    ensures { IfOk result (λ state. state ≡ state_told point.now log.now object.now at.now) }
{
    let mut state = point.state(alloc, object)?;
    fold_inside(&mut state, log, log.chain(object), at)?;
    Ok(state)
}

// Folds the operations whose transaction has a stamp within the vector.
fn fold_inside(state: &mut State, log: &Log, cells: &[Cell], at: &Vector) -> Result<(), NoMemory>
    ensures { OnOk result (state.new ≡ fold_of state.old (ops_in (filter (λ c. is_inside_at at.now c.tx log.now.items) cells.now))) }
{
    for cell in cells {
        if log.inside(cell.tx, at) {
            state.fold(&cell.mark, &cell.op)?;
        }
    }
    Ok(())
}

/// The greatest number of a client's transactions within a vector, 0 for none.
pub fn mine_at(point: &Point, log: &Log, client: u32, at: &Vector) -> u64
    ensures { result ≡ mine_told point.now log.now client at.now }
{
    point.number(client).max(log.mine(client, at))
}

/// Takes in a record: the first of its transaction, whose dot is not in the log then, or another one,
/// which gives the transaction one stamp more where the log has it. An `Err` leaves all as it was.
pub fn keep(log: &mut Log, item: &Record, fresh: bool) -> Result<(), NoMemory>
    requires new { fresh ≡ true → has_dot item.now.tx.dot log.old.items ≡ false }
    requires few { length item.now.tx.updates ≤ MOST_UPDATES }
    ensures ok { OnOk result (log.new ≡ with_one log.old item.now fresh) }
    ensures err { OnErr result (log.new ≡ log.old) }
{
    if fresh {
        log.append(item)
    } else {
        log.alias(&item.tx.dot, &item.stamp)?;
        Ok(())
    }
}

/// Folds the transactions of the log that have a stamp within a vector, which covers the point's, into the
/// point, and takes them out of the log. They stand for the same records then. An `Err` leaves both as they
/// were. Time: what is folded.
pub fn prune(alloc: Global, point: &mut Point, log: &mut Log, to: &Vector) -> Result<(), NoMemory>
    requires width { length to.now ≡ length point.old.vector }
    requires covers { Covers to.now point.old.vector }
    requires updates { All (λ x. HasFewUpdates x.tx) log.old.items }
    ensures vector { OnOk result (point.new.vector ≡ to.now) }
    ensures count { OnOk result (point.new.folded ≡ point.old.folded + length (within_of to.now log.old.items)) }
    ensures left { OnOk result (log.new ≡ record log.old { items = left_of to.now log.old.items }) }
    ensures stand { OnOk result ((A : List RecordOf) → StandFor A point.old log.old → StandFor A point.new log.new) }
    ensures err { OnErr result ((point.new ≡ point.old) × (log.new ≡ log.old)) }
{
    let txs = log.within(to)?;
    point.advance(alloc, to, txs.as_slice())?;
    log.take_within(to);
    Ok(())
}
