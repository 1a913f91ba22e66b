// The states of objects that a client keeps.
ghost use Rattle.std.specs.Option.{option_copied};
ghost use Rattle.std.specs.Prelude.{◌≡◌, ◌≤◌, ℕ, List, [], is_some, option_map, slice_get, Some, IsSome, IfOk, IfSome, IfNone, OnOk, OnErr};
ghost use Rattle.std.specs.Bool.{OnTrue};
ghost use Rattle.std.specs.Map.{lookup};
ghost use Rattle.lru.specs.LruCache.{put_entries};
ghost use Rattle.ids_core.specs.Ids.{same_object};
ghost use Rattle.tx_core.specs.declared.state.State.{State as the_state};
ghost use Rattle.tx_core.specs.States.{fold_of};
ghost use Rattle.dc_talk.specs.Clients.{cached, promoted};
ghost use Rattle.client_cache.specs.Caches.{StateAt};
ghost use Rattle.client_cache.specs.Peeks.{HasOnly, HasNone};
ghost use Rattle.client_cache.specs.Tables.{entries_of, is_held_at};

use crate::held::Held;
use ids_core::{Mark, NoMemory, ObjectId};
use lru::LruCache;
use std::alloc::Global;
use std::marker::Model;
use std::num::NonZeroUsize;
use tx_core::{Op, State};
use vv_core::Vector;

/// The states of objects at vectors, at most one for each object that is kept, seen as the list of
/// the entries, the most recently used first, with the most that there may be (1 or more).
#[derive(Drop)]
pub struct Cache {
    table: Table,
}

// The entries, found by their objects, in the order of their last use.
type Table = LruCache<ObjectId, Held>;

impl Model for Cache {
    ghost use Rattle.tx_core.specs.States.{state_codes};
    ghost use Rattle.client_cache.specs.Caches.{Entries};
    ghost use Rattle.client_cache.specs.Tables.{entries_of};

    ghost Value = { Entries };

    ghost coded = { Prim.hlevel state_codes };

    ghost view = { λ c. record { entries = entries_of c.table.entries; capacity = c.table.cap } };
}

impl Cache {
    ghost use Rattle.std.specs.Borrow.{sem};
    ghost use Rattle.std.specs.Option.{option_copied};
    ghost use Rattle.dc_talk.specs.Clients.{entry_of, forgotten, kept};
    ghost use Rattle.client_cache.specs.CacheEnds.{EndsAs};

    /// The empty cache, for `capacity` entries, 1 or more.
    pub fn new(alloc: Global, capacity: usize) -> Result<Cache, NoMemory>
        requires { 1 ≤ capacity }
        ensures { IfOk result (λ cache. cache ≡ record { entries = []; capacity = capacity }) }
    {
        match NonZeroUsize::new(capacity) {
            Some(capacity) => Ok(Cache {
                table: LruCache::sparse(alloc, capacity)?,
            }),
            None => unreachable!(),
        }
    }

    /// The state of the object at that vector, where there is one. Its entry becomes the most
    /// recently used. What came to the object is folded into the state now: only that takes memory, and
    /// where memory is refused nothing that is seen changes but the order.
    pub fn find(&mut self, object: &ObjectId, at: &Vector) -> Result<Option<&State>, NoMemory>
        ensures* ends { sem 𝓛 (EndsAs self.entry (record self.old { entries = promoted object.now at.now self.old.entries })) }
        ensures value { IfOk result (λ found. option_copied found ≡ cached object.now at.now self.old.entries) }
        ensures short { OnErr result (IsSome (cached object.now at.now self.old.entries)) }
    {
        if promote(&mut self.table, object, at) {
            settle(&mut self.table, object);
            first(&self.table)
        } else {
            Ok(None)
        }
    }

    /// The vector of the object's entry, where there is one. The order of the entries stays as it is. It
    /// takes no memory.
    pub fn peek(&self, object: &ObjectId) -> Option<Vector>
        ensures some { IfSome result (λ at. HasOnly object.now at self.now.entries) }
        ensures none { IfNone result (HasNone object.now self.now.entries) }
    {
        let _size = self.table.len();
        match self.table.peek(object) {
            Some(held) => Some(held.vector()),
            None => None,
        }
    }

    /// Brings the object's entry to a vector, by the operations that came to the object since, and makes it the
    /// most recently used. The state that the cache has is not copied. Nothing changes where memory is refused.
    pub fn bring(
        &mut self,
        object: &ObjectId,
        at: &Vector,
        tail: &[(Mark, Op)],
    ) -> Result<(), NoMemory>
        requires { IsSome (entry_of object.now self.old.entries) }
        ensures capacity { self.new.capacity ≡ self.old.capacity }
        ensures ok { OnOk result ((from : List ℕ) (state : the_state) → cached object.now from self.old.entries ≡ Some state → self.new.entries ≡ kept self.old.capacity (record { object = object.now; vector = at.now; state = fold_of state tail.now }) self.old.entries) }
        ensures err { OnErr result (self.new.entries ≡ self.old.entries) }
    {
        let tail = tail.to_vec(*self.table.allocator())?;
        let _size = self.table.len();
        bring(&mut self.table, object, at, tail)
    }

    /// Takes the object's entry out; false exactly where there is none. It takes no memory.
    pub fn forget(&mut self, object: &ObjectId) -> bool
        ensures entries { self.new ≡ record self.old { entries = forgotten object.now self.old.entries } }
        ensures there { result ≡ is_some (entry_of object.now self.old.entries) }
    {
        self.table.pop(object).is_some()
    }

    /// Keeps a state, as the most recently used, in place of the object's older one. Where that is
    /// one entry too many, the least recently used falls out. Nothing changes where memory is
    /// refused.
    pub fn keep(&mut self, object: &ObjectId, at: &Vector, state: State) -> Result<(), NoMemory>
        ensures capacity { self.new.capacity ≡ self.old.capacity }
        ensures ok { OnOk result (self.new.entries ≡ kept self.old.capacity (record { object = object.now; vector = at.now; state = state }) self.old.entries) }
        ensures err { OnErr result (self.new.entries ≡ self.old.entries) }
    {
        let held = Held::new(*self.table.allocator(), at, state);
        let _size = self.table.len();
        self.table.put(*object, held)?;
        Ok(())
    }
}

// Makes the entry of the object at the vector the most recently used; whether there is one.
fn promote(table: &mut Table, object: &ObjectId, at: &Vector) -> bool
    ensures entries { entries_of table.new.entries ≡ promoted object.now at.now (entries_of table.old.entries) }
    ensures capacity { table.new.cap ≡ table.old.cap }
    ensures there { result ≡ is_some (cached object.now at.now (entries_of table.old.entries)) }
    ensures first { OnTrue result (cached object.now at.now (entries_of table.old.entries) ≡ option_map (λ e. e.1.state) (slice_get table.new.entries 0)) }
{
    let _size = table.len();
    has(table, object, at) && table.promote(object)
}

// Whether what is kept of the object is at the vector.
fn has(table: &Table, object: &ObjectId, at: &Vector) -> bool
    ensures { result ≡ is_held_at at.now (lookup (same_object object.now) table.now.entries) }
{
    match table.peek(object) {
        Some(held) => held.vector() == *at,
        None => false,
    }
}

// Folds what came to the object into its state, as far as there is memory for that.
fn settle(table: &mut Table, object: &ObjectId)
    ensures entries { table.new.entries ≡ table.old.entries }
    ensures capacity { table.new.cap ≡ table.old.cap }
{
    if let Some(held) = table.peek_mut(object) {
        held.settle();
    }
}

// Brings what is kept of the object to a vector, as the most recently used. Nothing changes where memory is refused.
fn bring(
    table: &mut Table,
    object: &ObjectId,
    at: &Vector,
    tail: Vec<(Mark, Op)>,
) -> Result<(), NoMemory>
    requires { IsSome (lookup (same_object object.now) table.old.entries) }
    ensures capacity { table.new.cap ≡ table.old.cap }
    ensures ok { OnOk result ((held : StateAt) → lookup (same_object object.now) table.old.entries ≡ Some held → table.new.entries ≡ put_entries same_object table.old object.now (record { vector = at.now; state = fold_of held.state tail.items })) }
    ensures err { OnErr result (table.new.entries ≡ table.old.entries) }
{
    match table.peek_mut(object) {
        Some(held) => held.bring(at, tail)?,
        None => unreachable!(),
    }
    table.promote(object);
    Ok(())
}

// The state of the most recently used entry, where all that came to it is folded in.
fn first(table: &Table) -> Result<Option<&State>, NoMemory>
    ensures { IfOk result (λ found. option_copied found ≡ option_map (λ e. e.1.state) (slice_get table.now.entries 0)) }
{
    match table.peek_mru() {
        Some((_, held)) => match held.state() {
            Ok(state) => Ok(Some(state)),
            Err(NoMemory) => Err(NoMemory),
        },
        None => Ok(None),
    }
}
