// The states that a client had of objects at the snapshot before.
ghost use Rattle.std.specs.Prelude.{◌≡◌, ◌≤◌, [], length, take, drop, flat_map, Some, None, All, IfOk, false};
ghost use Rattle.std.specs.Map.{lookup};
ghost use Rattle.ids_core.specs.Ids.{same_object};
ghost use Rattle.ids_core.specs.declared.limits.TheConstants.{MOST_CENTRES};
ghost use Rattle.ids_core.specs.declared.object.ObjectId.{ObjectId as the_object};
ghost use Rattle.tx_core.specs.declared.state.State.{State as the_state};
ghost use Rattle.tx_core.specs.Operations.{ops_of};
ghost use Rattle.client_session.specs.Folded.{HadApart, IsWithout};

use crate::folded::{Folded, let_all_go, let_go, new_folded, put, take_out};
use client_pending::Pending;
use ids_core::{Mark, NoMemory, ObjectId};
use std::alloc::Global;
use std::mem::{replace, swap};
use tx_core::{Op, State, Update};
use vv_core::Vector;

/// What is kept of the snapshot before: the commits that were pending then and are within the snapshot now, and the
/// states of objects that were kept folded. Where nothing else came to an object its state still is what the client
/// has of it.
#[derive(Drop)]
pub(crate) struct Past {
    pub(crate) vector: Vector,
    pub(crate) passed: Pending,
    pub(crate) folded: Folded,
}

// Nothing is kept of a snapshot before, for a cache of so many entries among `n` centres.
pub(crate) fn new_past(alloc: Global, n: u8, most: usize) -> Result<Past, NoMemory>
    requires centres { (1 ≤ n) × (n ≤ MOST_CENTRES) }
    requires most { 1 ≤ most }
    ensures { IfOk result (λ past. past.folded.entries ≡ []) }
{
    Ok(Past {
        vector: Vector::zero(n),
        passed: Pending::new(alloc),
        folded: new_folded(alloc, most)?,
    })
}

// Goes on from a snapshot, with so many of the pending commits within the next one. The states that are kept folded
// become those of the snapshot before, where no commit is left pending, and else they are let go. It takes no memory.
pub(crate) fn turn(
    past: &mut Past,
    folded: &mut Folded,
    pending: &mut Pending,
    at: &Vector,
    count: usize,
)
    requires { count ≤ length pending.old }
    ensures pending { pending.new ≡ drop count pending.old }
    ensures none { folded.new.entries ≡ [] }
    ensures was { (o : the_object) (seen : the_state) → lookup (same_object o) past.new.folded.entries ≡ Some seen → (lookup (same_object o) folded.old.entries ≡ Some seen) × (past.new.vector ≡ at.now) × (past.new.passed ≡ take count pending.old) }
{
    past.folded.clear();
    if count < pending.as_slice().len() {
        pending.drop_front(count);
        folded.clear();
    } else {
        let none = Pending::new(pending.allocator());
        past.vector = *at;
        past.passed = replace(pending, none);
        swap(&mut past.folded, folded);
    }
}

// Takes the state that was kept of an object at the snapshot before over, where the cache has the object at that one
// and nothing came to it but what the commits did. Else no state of the object is kept.
pub(crate) fn take_over(
    past: &mut Past,
    folded: &mut Folded,
    object: &ObjectId,
    from: &Vector,
    tail: &[(Mark, Op)],
)
    ensures past { IsWithout object.now past.old past.new }
    ensures apart { HadApart object.now folded.old.entries folded.new.entries }
    ensures there { (seen : the_state) → lookup (same_object object.now) folded.new.entries ≡ Some seen → (lookup (same_object object.now) past.old.folded.entries ≡ Some seen) × (from.now ≡ past.old.vector) × (flat_map (ops_of object.now) past.old.passed ≡ tail.now) }
{
    let_go(folded, object);
    if let Some(state) = take_out(&mut past.folded, object) {
        if *from == past.vector && past.passed.has_changes(object, tail) {
            keep_on(folded, object, state);
        }
    }
}

// Keeps the state of an object, where there is memory for that.
fn keep_on(folded: &mut Folded, object: &ObjectId, state: State)
    requires { lookup (same_object object.now) folded.old.entries ≡ None }
    ensures there { (seen : the_state) → lookup (same_object object.now) folded.new.entries ≡ Some seen → seen ≡ state }
    ensures apart { HadApart object.now folded.old.entries folded.new.entries }
{
    match put(folded, object, state) {
        Ok(()) => (),
        Err(NoMemory) => (),
    }
}

// Lets the states that objects had at the snapshot before go, where the updates change them.
pub(crate) fn leave_all(past: &mut Past, updates: &[Update])
    ensures vector { past.new.vector ≡ past.old.vector }
    ensures passed { past.new.passed ≡ past.old.passed }
    ensures left { (o : the_object) (seen : the_state) → lookup (same_object o) past.new.folded.entries ≡ Some seen → (lookup (same_object o) past.old.folded.entries ≡ Some seen) × All (λ u. same_object u.object o ≡ false) updates.now }
{
    let_all_go(&mut past.folded, updates);
}

// Lets the state of an object at the snapshot before go.
pub(crate) fn leave(past: &mut Past, object: &ObjectId)
    ensures { IsWithout object.now past.old past.new }
{
    let_go(&mut past.folded, object);
}
