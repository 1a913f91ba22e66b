// Counters.
use ids_core::{Kind, Mark, NoMemory, fold_all};
use obj_counter::{CounterOp, CounterState};
use samples::{id, mark};
use std::alloc::Global;
use std::test::Fail;

// The marked operation at a place that adds a delta.
fn add(place: u16, delta: i64) -> (Mark, CounterOp) {
    (mark(1, id(1, 1, place)), CounterOp { delta })
}

// The sum after operations.
fn sum(alloc: Global, ops: &[(Mark, CounterOp)]) -> Result<i128, NoMemory> {
    let state = fold_all::<CounterState>(alloc, ops)?;
    Ok(CounterState::copy(&state)?.value())
}

#[test]
fn deltas_add_up_in_either_order(rt: HostRuntime) -> Result<(), Fail> {
    let ops = [add(0, 5), add(1, -7), add(2, 4)];
    assert_eq!(rt; sum(rt.alloc(), &ops)?, 2);
    let back = [add(2, 4), add(1, -7), add(0, 5)];
    assert_eq!(rt; sum(rt.alloc(), &back)?, 2);
    Ok(())
}
