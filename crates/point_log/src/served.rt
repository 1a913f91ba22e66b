// States that were served, kept so that a later one is not folded from the point again.
ghost use Rattle.std.specs.Prelude.{◌≡◌, ◌≤◌, ◌⊎◌, ℕ, List, length, take, drop, filter, None, IfOk, OnOk, IfSome};
ghost use Rattle.std.specs.Bool.{OnFalse};
ghost use Rattle.ids_core.specs.declared.object.ObjectId.{ObjectId as ObjectOf};
ghost use Rattle.vv_core.specs.Vectors.{Covers};
ghost use Rattle.tx_core.specs.States.{fold_of};
ghost use Rattle.op_log.specs.Logs.{chain_of};
ghost use Rattle.point_log.specs.LogSplits.{ops_in};
ghost use Rattle.point_log.specs.StandFor.{state_told};
ghost use Rattle.point_log.specs.KeptLogs.{IsKeptLog};
ghost use Rattle.point_log.specs.Served.{is_since, AreInside, IsServed, AreServed, IsPut, served_of};

use crate::standing::state_at;
use check_point::Point;
use dc_talk::SharedState;
use ids_core::{NoMemory, ObjectId};
use op_log::{Cell, Log};
use std::alloc::Global;
use std::collections::BTreeMap;
use tx_core::State;
use vv_core::Vector;

/// How many operations of an object are folded anew at each fetch, before its state is kept.
const FEW_CELLS: usize = 16;

/// How many objects' states are kept at most. Where one more is to be, all are forgotten.
const MOST_SERVED: usize = 1_024;

/// The state of an object at a vector, which answers share, and how many of the first operations of the
/// object's chain are known to be of transactions with a stamp within the vector.
#[derive(Drop)]
pub struct Served {
    pub at: Vector,
    pub state: SharedState,
    pub done: usize,
}

/// The last served states by their objects.
pub type ServedStates = BTreeMap<ObjectId, Served>;

/// The state of an object at a vector that covers the point's. Where the object has many operations in the
/// log the state is kept. At the same vector it is handed out again, with no memory for the state. At a later
/// vector a copy of it is folded on: time is then that of the copy, of what came since, and of what of it an
/// earlier vector had left out. No more than `MOST_SERVED` states are kept.
pub fn serve(
    alloc: Global,
    point: &Point,
    log: &Log,
    kept: &mut ServedStates,
    object: &ObjectId,
    at: &Vector,
) -> Result<SharedState, NoMemory>
    requires wide { length at.now ≡ length point.now.vector }
    requires covers { Covers at.now point.now.vector }
    requires well { IsKeptLog log.now }
    requires served { (o : ObjectOf) → IfSome (served_of kept.old.entries o) (IsServed point.now log.now o) }
    ensures state { IfOk result (λ state. state ≡ state_told point.now log.now object.now at.now) }
    ensures served { (o : ObjectOf) → IfSome (served_of kept.new.entries o) (IsServed point.now log.now o) }
    ensures here { (w : List ℕ) → Covers w at.now → ((o : ObjectOf) → IfSome (served_of kept.old.entries o) (λ s. Covers w s.at)) → (o : ObjectOf) → IfSome (served_of kept.new.entries o) (λ s. Covers w s.at) }
{
    if log.chain(object).len() < FEW_CELLS || is_ahead(kept, object, at) {
        return SharedState::new(alloc, state_at(alloc, point, log, object, at)?);
    }
    let found = kept.remove(object);
    let served = served_on(alloc, point, log, found, object, at)?;
    let state = served.state.copy()?;
    put(kept, object, served)?;
    Ok(state)
}

// Whether a state is kept of the object, at a vector that this one does not cover.
fn is_ahead(kept: &ServedStates, object: &ObjectId, at: &Vector) -> bool
    requires { IfSome (served_of kept.now.entries object.now) (λ s. length s.at ≡ length at.now) }
    ensures { OnFalse result (IfSome (served_of kept.now.entries object.now) (λ s. Covers at.now s.at)) }
{
    match kept.get(object) {
        Some(served) => !at.covers(&served.at),
        None => false,
    }
}

// The state of the object, folded from one at a vector that this one covers, or else from the point.
fn served_on(
    alloc: Global,
    point: &Point,
    log: &Log,
    found: Option<Served>,
    object: &ObjectId,
    at: &Vector,
) -> Result<Served, NoMemory>
    requires wide { length at.now ≡ length point.now.vector }
    requires covers { Covers at.now point.now.vector }
    requires well { IsKeptLog log.now }
    requires found { IfSome found (IsServed point.now log.now object.now) }
    requires later { IfSome found (λ s. Covers at.now s.at) }
    ensures served { IfOk result (IsServed point.now log.now object.now) }
    ensures at { IfOk result (λ s. s.at ≡ at.now) }
{
    match found {
        Some(served) => gone_on(alloc, served, log, log.chain(object), at),
        None => served_first(alloc, point, log, object, at),
    }
}

// The state of the object, folded from the point.
fn served_first(
    alloc: Global,
    point: &Point,
    log: &Log,
    object: &ObjectId,
    at: &Vector,
) -> Result<Served, NoMemory>
    requires wide { length at.now ≡ length point.now.vector }
    requires covers { Covers at.now point.now.vector }
    ensures served { IfOk result (λ s. IsServed point.now log.now object.now s) }
    ensures at { IfOk result (λ s. s.at ≡ at.now) }
{
    Ok(Served {
        at: *at,
        state: SharedState::new(alloc, state_at(alloc, point, log, object, at)?)?,
        done: first_inside(log, log.chain(object), 0, at),
    })
}

// A state, and what came since folded: the operations of its object's chain whose transaction has a stamp
// within the vector, and none within the one before. At the same vector nothing did.
fn gone_on(
    alloc: Global,
    served: Served,
    log: &Log,
    cells: &[Cell],
    at: &Vector,
) -> Result<Served, NoMemory>
    requires few { served.done ≤ length cells.now }
    requires first { AreInside at.now log.now.items (take served.done cells.now) }
    ensures state { IfOk result (λ s. s.state ≡ fold_of served.state (ops_in (filter (is_since served.at at.now log.now.items) (drop served.done cells.now)))) }
    ensures at { IfOk result (λ s. s.at ≡ at.now) }
    ensures few { IfOk result (λ s. s.done ≤ length cells.now) }
    ensures first { IfOk result (λ s. AreInside at.now log.now.items (take s.done cells.now)) }
{
    if served.at == *at {
        return Ok(served);
    }
    let Served {
        at: before,
        state,
        done,
    } = served;
    let mut later = state.as_state().copy()?;
    fold_since(&mut later, log, &cells[done..], &before, at)?;
    Ok(Served {
        at: *at,
        state: SharedState::new(alloc, later)?,
        done: first_inside(log, cells, done, at),
    })
}

// Folds the operations whose transaction has a stamp within the vector, and none within the one before.
fn fold_since(
    state: &mut State,
    log: &Log,
    cells: &[Cell],
    before: &Vector,
    at: &Vector,
) -> Result<(), NoMemory>
    ensures { OnOk result (state.new ≡ fold_of state.old (ops_in (filter (is_since before.now at.now log.now.items) cells.now))) }
{
    for cell in cells {
        if is_since(log, cell, before, at) {
            state.fold(&cell.mark, &cell.op)?;
        }
    }
    Ok(())
}

// Whether the operation's transaction has a stamp within the vector, and none within the one before.
fn is_since(log: &Log, cell: &Cell, before: &Vector, at: &Vector) -> bool
    ensures { result ≡ is_since before.now at.now log.now.items cell.now }
{
    log.since(cell.tx, before, at)
}

/// How many of the first operations, of which so many are known to be, are of transactions with a stamp
/// within the vector.
pub fn first_inside(log: &Log, cells: &[Cell], known: usize, at: &Vector) -> usize
    requires few { known ≤ length cells.now }
    requires first { AreInside at.now log.now.items (take known cells.now) }
    ensures few { result ≤ length cells.now }
    ensures first { AreInside at.now log.now.items (take result cells.now) }
{
    let mut done = known;
    while done < cells.len() && log.inside(cells[done].tx, at) {
        done += 1;
    }
    done
}

// Keeps the state of an object. Where there are `MOST_SERVED` of them, or memory is refused, states are
// forgotten.
fn put(kept: &mut ServedStates, object: &ObjectId, served: Served) -> Result<(), NoMemory>
    ensures { IsPut kept.old.entries kept.new.entries object.now served }
{
    make_room(kept);
    kept.insert(*object, served)?;
    Ok(())
}

// Forgets all states, where there are `MOST_SERVED` of them.
fn make_room(kept: &mut ServedStates)
    ensures { (o : ObjectOf) → (served_of kept.new.entries o ≡ served_of kept.old.entries o) ⊎ (served_of kept.new.entries o ≡ None) }
{
    if kept.len() < MOST_SERVED {
        return;
    }
    kept.clear();
}
