// The lists of all objects.
ghost use Rattle.std.specs.Prelude.{◌≡◌, ◌++◌, ◌∷◌, ◌-◌, [], false, drop, take, length, OnOk, OnErr};
ghost use Rattle.std.specs.Fn.{CalledAt};
ghost use Rattle.std.specs.List.Retain.{IsFiltered};
ghost use Rattle.ids_core.specs.Ids.{same_object};
ghost use Rattle.ids_core.specs.declared.object.ObjectId.{ObjectId};
ghost use Rattle.object_lists.specs.Listed.{listed};

use crate::lines::{Lines, drop_first_at, drop_last_at, items_at, put_at, remove_at, retain_at};
use ids_core::{NoMemory, ObjectId};
use std::alloc::Global;
use std::collections::BTreeMap;
use std::marker::Model;

/// The items of objects, for each object a list, found by the object. An object that has no item takes
/// no room. Contracts see the lists beside their objects, and speak of that of an object.
#[derive(Drop)]
pub struct ObjectLists<T> {
    lines: Lines<T>,
    alloc: Global,
}

impl<T> Model for ObjectLists<T> {
    ghost use Rattle.std.specs.Prelude.{List};
    ghost use Rattle.ids_core.specs.declared.object.ObjectId.{ObjectId};

    ghost Value = { List (ObjectId × List T) };

    ghost view = { λ l. l.lines.entries };
}

impl<T: Drop> ObjectLists<T> {
    /// No item. It takes no memory.
    pub fn new(alloc: Global) -> Self
        ensures { result ≡ [] }
    {
        ObjectLists {
            lines: BTreeMap::new(alloc),
            alloc,
        }
    }

    /// The items of an object, in their order. It takes no memory. Time: logarithmic in the number of
    /// objects, as for all other calls.
    pub fn get(&self, object: &ObjectId) -> &[T]
        ensures { result.now ≡ listed self.now object.now }
    {
        items_at(&self.lines, object)
    }

    /// Puts an item behind those of its object. An `Err` leaves all lists as they were.
    #[tactic(auto, using(crate::proofs::Turned::other_object))]
    pub fn put(&mut self, object: &ObjectId, item: T) -> Result<(), NoMemory>
        ensures there { OnOk result (listed self.new object.now ≡ listed self.old object.now ++ item ∷ []) }
        ensures apart { (o : ObjectId) → same_object object.now o ≡ false → listed self.new o ≡ listed self.old o }
        ensures err { OnErr result (listed self.new object.now ≡ listed self.old object.now) }
    {
        put_at(&mut self.lines, self.alloc, object, item)
    }

    /// Takes the first item of an object away, where there is one. It takes no memory.
    #[tactic(auto, using(crate::proofs::Turned::other_object))]
    pub fn take_first(&mut self, object: &ObjectId)
        ensures there { listed self.new object.now ≡ drop 1 (listed self.old object.now) }
        ensures apart { (o : ObjectId) → same_object object.now o ≡ false → listed self.new o ≡ listed self.old o }
    {
        if drop_first_at(&mut self.lines, object) {
            remove_at(&mut self.lines, object);
        }
    }

    /// Takes the last item of an object away, where there is one. It takes no memory.
    #[tactic(auto, using(crate::proofs::Turned::other_object))]
    pub fn take_last(&mut self, object: &ObjectId)
        ensures there { listed self.new object.now ≡ take (length (listed self.old object.now) - 1) (listed self.old object.now) }
        ensures apart { (o : ObjectId) → same_object object.now o ≡ false → listed self.new o ≡ listed self.old o }
    {
        if drop_last_at(&mut self.lines, object) {
            remove_at(&mut self.lines, object);
        }
    }

    /// Leaves of the items of an object those that pass. It takes no memory. Time: a step for each item of
    /// the object too.
    #[tactic(auto, using(crate::proofs::Turned::other_object))]
    pub fn retain<F: FnMut(&T) -> bool>(&mut self, object: &ObjectId, keeps: F)
        requires { F.IsAlwaysCallable keeps }
        ensures there { IsFiltered (CalledAt F.FnMut) keeps (listed self.old object.now) (listed self.new object.now) }
        ensures apart { (o : ObjectId) → same_object object.now o ≡ false → listed self.new o ≡ listed self.old o }
    {
        if retain_at(&mut self.lines, object, keeps) {
            remove_at(&mut self.lines, object);
        }
    }
}
