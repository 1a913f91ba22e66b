// How many of the first operations of objects are known to be within a vector, kept so that they are not looked at
// again.
ghost use Rattle.std.specs.Prelude.{◌≡◌, ◌≤◌, ◌⊎◌, None, length, take, IfSome};
ghost use Rattle.ids_core.specs.declared.object.ObjectId.{ObjectId as ObjectOf};
ghost use Rattle.op_log.specs.Logs.{chain_of};
ghost use Rattle.point_log.specs.Served.{AreInside};
ghost use Rattle.object_delta.specs.Passed.{ArePassed, IsPassed, IsPassedPut, passed_of};

use ids_core::ObjectId;
use op_log::Log;
use point_log::first_inside;
use std::collections::BTreeMap;
use vv_core::Vector;

/// How many objects are known at most. Where one more is to be, all are forgotten.
const MOST_PASSED: usize = 1_024;

/// How many of the first operations of an object's chain are known to be of transactions with a stamp within the
/// vector.
#[derive(Clone, Copy)]
pub struct Passed {
    pub at: Vector,
    pub done: usize,
}

/// What is known of objects.
pub type PassedObjects = BTreeMap<ObjectId, Passed>;

// How many of the first operations of the object's chain are known to be within the vector: as many as are kept at
// one that it covers, or else none.
pub(crate) fn passed_before(
    log: &Log,
    kept: &PassedObjects,
    object: &ObjectId,
    at: &Vector,
) -> usize
    requires { ArePassed (length at.now) log.now kept.now.entries }
    ensures few { result ≤ length (chain_of object.now log.now.items) }
    ensures first { AreInside at.now log.now.items (take result (chain_of object.now log.now.items)) }
{
    match kept.get(object) {
        Some(passed) if at.covers(&passed.at) => passed.done,
        _ => 0,
    }
}

// Keeps how many of the first operations of the object's chain are within the vector, of which so many are known to
// be.
pub(crate) fn pass(
    log: &Log,
    kept: &mut PassedObjects,
    object: &ObjectId,
    at: &Vector,
    known: usize,
)
    requires passed { ArePassed (length at.now) log.now kept.old.entries }
    requires few { known ≤ length (chain_of object.now log.now.items) }
    requires first { AreInside at.now log.now.items (take known (chain_of object.now log.now.items)) }
    ensures { ArePassed (length at.now) log.now kept.new.entries }
{
    let done = first_inside(log, log.chain(object), known, at);
    put(kept, object, Passed { at: *at, done });
}

// Keeps what is known of an object. Where `MOST_PASSED` are known, or memory is refused, objects are forgotten.
fn put(kept: &mut PassedObjects, object: &ObjectId, passed: Passed)
    ensures { IsPassedPut kept.old.entries kept.new.entries object.now passed }
{
    make_room(kept);
    match kept.insert(*object, passed) {
        Ok(_) => {}
        Err(_) => {}
    }
}

// Forgets all objects, where `MOST_PASSED` are known.
fn make_room(kept: &mut PassedObjects)
    ensures { (o : ObjectOf) → (passed_of kept.new.entries o ≡ passed_of kept.old.entries o) ⊎ (passed_of kept.new.entries o ≡ None) }
{
    if kept.len() < MOST_PASSED {
        return;
    }
    kept.clear();
}
