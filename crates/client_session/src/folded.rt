// The states that a client has of objects, kept with all that is pending and open folded in.
ghost use Rattle.std.specs.Prelude.{◌≡◌, ◌≤◌, ◌<◌, ℕ, [], length, is_some, Some, None, All, IfOk, OnOk, OnErr, false};
ghost use Rattle.std.specs.Bool.{OnFalse, OnTrue};
ghost use Rattle.std.specs.Option.{unwrap_or};
ghost use Rattle.std.specs.Map.{lookup};
ghost use Rattle.ids_core.specs.Ids.{same_object};
ghost use Rattle.ids_core.specs.declared.limits.TheConstants.{MOST_UPDATES};
ghost use Rattle.ids_core.specs.declared.ids.Dot.{Dot as the_dot};
ghost use Rattle.ids_core.specs.declared.object.ObjectId.{ObjectId as the_object};
ghost use Rattle.tx_core.specs.declared.state.State.{State as the_state};
ghost use Rattle.tx_core.specs.States.{step, fold_of};
ghost use Rattle.client_session.specs.Folded.{ops_behind, HadApart};

use client_pending::Pending;
use dc_talk::fold_updates;
use ids_core::{Dot, Mark, NoMemory, ObjectId};
use lru::LruCache;
use std::alloc::Global;
use std::num::NonZeroUsize;
use tx_core::{Op, State, Update};

/// States of objects, the most recently used first: at most as many as the cache has entries.
pub(crate) type Folded = LruCache<ObjectId, State>;

// None is kept, for a cache of so many entries.
pub(crate) fn new_folded(alloc: Global, most: usize) -> Result<Folded, NoMemory>
    requires { 1 ≤ most }
    ensures { IfOk result (λ folded. folded.entries ≡ []) }
{
    match NonZeroUsize::new(most) {
        Some(most) => Ok(LruCache::sparse(alloc, most)?),
        None => unreachable!(),
    }
}

// Keeps what the client has of an object, whose state at the snapshot is given, where commits that are
// pending or the open transaction change it. Where memory is refused it is not kept.
pub(crate) fn stand(
    folded: &mut Folded,
    object: &ObjectId,
    base: &State,
    pending: &Pending,
    rank: u64,
    dot: &Dot,
    updates: &[Update],
) -> Result<(), NoMemory>
    requires few { length updates.now ≤ MOST_UPDATES }
    requires kept { (seen : the_state) → lookup (same_object object.now) folded.old.entries ≡ Some seen → seen ≡ fold_of base.now (ops_behind object.now pending.now rank dot.now updates.now) }
    ensures kept { (seen : the_state) → lookup (same_object object.now) folded.new.entries ≡ Some seen → seen ≡ fold_of base.now (ops_behind object.now pending.now rank dot.now updates.now) }
    ensures there { OnOk result (unwrap_or (lookup (same_object object.now) folded.new.entries) base.now ≡ fold_of base.now (ops_behind object.now pending.now rank dot.now updates.now)) }
    ensures apart { HadApart object.now folded.old.entries folded.new.entries }
{
    if use_again(folded, object) {
        return Ok(());
    }
    if !is_changed(object, pending, updates) {
        return Ok(());
    }
    let state = view_of(object, base, pending, rank, dot, updates)?;
    put(folded, object, state)
}

// Makes the state of an object the most recently used; whether one is kept.
fn use_again(folded: &mut Folded, object: &ObjectId) -> bool
    ensures there { result ≡ is_some (lookup (same_object object.now) folded.old.entries) }
    ensures same { (o : the_object) → lookup (same_object o) folded.new.entries ≡ lookup (same_object o) folded.old.entries }
{
    folded.promote(object)
}

// Keeps the state of an object. Nothing changes where memory is refused.
pub(crate) fn put(folded: &mut Folded, object: &ObjectId, state: State) -> Result<(), NoMemory>
    ensures there { OnOk result (lookup (same_object object.now) folded.new.entries ≡ Some state) }
    ensures apart { HadApart object.now folded.old.entries folded.new.entries }
    ensures err { OnErr result ((o : the_object) → lookup (same_object o) folded.new.entries ≡ lookup (same_object o) folded.old.entries) }
{
    folded.put(*object, state)?;
    Ok(())
}

// What the client has of an object whose state at the snapshot is given.
fn view_of(
    object: &ObjectId,
    base: &State,
    pending: &Pending,
    rank: u64,
    dot: &Dot,
    updates: &[Update],
) -> Result<State, NoMemory>
    requires { length updates.now ≤ MOST_UPDATES }
    ensures { IfOk result (λ state. state ≡ fold_of base.now (ops_behind object.now pending.now rank dot.now updates.now)) }
{
    let mut state = base.copy()?;
    pending.fold(object, &mut state)?;
    fold_updates(&mut state, object, rank, dot, updates)?;
    Ok(state)
}

// The state that is kept of an object, or else the one that is given.
pub(crate) fn seen<'a>(folded: &'a Folded, object: &ObjectId, base: &'a State) -> &'a State
    ensures { result.now ≡ unwrap_or (lookup (same_object object.now) folded.now.entries) base.now }
{
    match folded.peek(object) {
        Some(state) => state,
        None => base,
    }
}

// Takes an operation into the state that is kept of its object, where one is. Where memory is refused that
// is let go.
pub(crate) fn follow(folded: &mut Folded, object: &ObjectId, mark: &Mark, op: &Op)
    ensures there { (seen : the_state) → lookup (same_object object.now) folded.new.entries ≡ Some seen → (before : the_state) × (lookup (same_object object.now) folded.old.entries ≡ Some before) × (seen ≡ step before (mark.now, op.now)) }
    ensures apart { HadApart object.now folded.old.entries folded.new.entries }
{
    if !fold_kept(folded, object, mark, op) {
        let_go(folded, object);
    }
}

// The same; whether there was memory for it.
fn fold_kept(folded: &mut Folded, object: &ObjectId, mark: &Mark, op: &Op) -> bool
    ensures there { OnTrue result ((seen : the_state) → lookup (same_object object.now) folded.new.entries ≡ Some seen → (before : the_state) × (lookup (same_object object.now) folded.old.entries ≡ Some before) × (seen ≡ step before (mark.now, op.now))) }
    ensures apart { HadApart object.now folded.old.entries folded.new.entries }
{
    match folded.peek_mut(object) {
        Some(state) => state.fold(mark, op).is_ok(),
        None => true,
    }
}

// Takes the state of an object out, where one is kept.
pub(crate) fn take_out(folded: &mut Folded, object: &ObjectId) -> Option<State>
    ensures was { result ≡ lookup (same_object object.now) folded.old.entries }
    ensures gone { lookup (same_object object.now) folded.new.entries ≡ None }
    ensures apart { (o : the_object) → same_object object.now o ≡ false → lookup (same_object o) folded.new.entries ≡ lookup (same_object o) folded.old.entries }
{
    let _size = folded.len();
    folded.pop(object)
}

// Lets the state of an object go.
pub(crate) fn let_go(folded: &mut Folded, object: &ObjectId)
    ensures gone { lookup (same_object object.now) folded.new.entries ≡ None }
    ensures apart { (o : the_object) → same_object object.now o ≡ false → lookup (same_object o) folded.new.entries ≡ lookup (same_object o) folded.old.entries }
{
    take_out(folded, object);
}

// Lets the states of all objects go that the updates change.
pub(crate) fn let_all_go(folded: &mut Folded, updates: &[Update])
    ensures { (o : the_object) (seen : the_state) → lookup (same_object o) folded.new.entries ≡ Some seen → (lookup (same_object o) folded.old.entries ≡ Some seen) × All (λ u. same_object u.object o ≡ false) updates.now }
{
    for update in updates {
        let_go(folded, &update.object);
    }
}

// Whether a commit that is pending, or one of the updates, may change the object.
fn is_changed(object: &ObjectId, pending: &Pending, updates: &[Update]) -> bool
    ensures { (rank : ℕ) (dot : the_dot) → OnFalse result (ops_behind object.now pending.now rank dot updates.now ≡ []) }
{
    pending.may_change(object) || changes(updates, object)
}

// Whether one of the updates changes the object.
fn changes(updates: &[Update], object: &ObjectId) -> bool
    ensures { OnFalse result (All (λ u. same_object u.object object.now ≡ false) updates.now) }
{
    updates.iter().any(|update| update.object == *object)
}
