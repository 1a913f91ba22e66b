// The items of all objects, found by the object.
ghost use Rattle.std.specs.Prelude.{◌≡◌, ◌++◌, ◌∷◌, ◌-◌, [], false, drop, take, length, OnOk, OnErr};
ghost use Rattle.std.specs.Bool.{OnTrue};
ghost use Rattle.std.specs.Fn.{CalledAt};
ghost use Rattle.std.specs.List.Retain.{IsFiltered};
ghost use Rattle.std.specs.BTreeMap.{is_at};
ghost use Rattle.ids_core.specs.Orders.{object_cmp};
ghost use Rattle.ids_core.specs.declared.object.ObjectId.{ObjectId};
ghost use Rattle.object_lists.specs.Listed.{listed};

use crate::line::Line;
use ids_core::{NoMemory, ObjectId};
use std::alloc::Global;
use std::collections::BTreeMap;

/// The lines of all objects; one that has no item has none.
pub(crate) type Lines<T> = BTreeMap<ObjectId, Line<T>>;

// The items of an object.
pub(crate) fn items_at<'a, T: Drop>(lines: &'a Lines<T>, object: &ObjectId) -> &'a [T]
    ensures { result.now ≡ listed lines.now.entries object.now }
{
    match lines.get(object) {
        Some(line) => line.as_slice(),
        None => &[],
    }
}

// Puts an item behind those of an object. An `Err` leaves all lines as they were.
pub(crate) fn put_at<T: Drop>(
    lines: &mut Lines<T>,
    alloc: Global,
    object: &ObjectId,
    item: T,
) -> Result<(), NoMemory>
    ensures there { OnOk result (listed lines.new.entries object.now ≡ listed lines.old.entries object.now ++ item ∷ []) }
    ensures apart { (o : ObjectId) → is_at (object_cmp object.now) o ≡ false → listed lines.new.entries o ≡ listed lines.old.entries o }
    ensures err { OnErr result (listed lines.new.entries object.now ≡ listed lines.old.entries object.now) }
{
    match lines.get_mut(object) {
        Some(line) => line.push(item),
        None => {
            let mut line = Line::new(alloc);
            line.push(item)?;
            lines.insert(*object, line)?;
            Ok(())
        }
    }
}

// Takes the first item of an object away, where there is one: whether it has a line that is left with none.
pub(crate) fn drop_first_at<T: Drop>(lines: &mut Lines<T>, object: &ObjectId) -> bool
    ensures bare { OnTrue result (listed lines.new.entries object.now ≡ []) }
    ensures there { listed lines.new.entries object.now ≡ drop 1 (listed lines.old.entries object.now) }
    ensures apart { (o : ObjectId) → is_at (object_cmp object.now) o ≡ false → listed lines.new.entries o ≡ listed lines.old.entries o }
{
    match lines.get_mut(object) {
        Some(line) => {
            line.drop_first();
            line.is_empty()
        }
        None => false,
    }
}

// Takes the last item of an object away, where there is one: whether it has a line that is left with none.
pub(crate) fn drop_last_at<T: Drop>(lines: &mut Lines<T>, object: &ObjectId) -> bool
    ensures bare { OnTrue result (listed lines.new.entries object.now ≡ []) }
    ensures there { listed lines.new.entries object.now ≡ take (length (listed lines.old.entries object.now) - 1) (listed lines.old.entries object.now) }
    ensures apart { (o : ObjectId) → is_at (object_cmp object.now) o ≡ false → listed lines.new.entries o ≡ listed lines.old.entries o }
{
    match lines.get_mut(object) {
        Some(line) => {
            line.drop_last();
            line.is_empty()
        }
        None => false,
    }
}

// Leaves of the items of an object those that pass: whether it has a line that is left with none.
pub(crate) fn retain_at<T: Drop, F: FnMut(&T) -> bool>(
    lines: &mut Lines<T>,
    object: &ObjectId,
    keeps: F,
) -> bool
    requires { F.IsAlwaysCallable keeps }
    ensures bare { OnTrue result (listed lines.new.entries object.now ≡ []) }
    ensures there { IsFiltered (CalledAt F.FnMut) keeps (listed lines.old.entries object.now) (listed lines.new.entries object.now) }
    ensures apart { (o : ObjectId) → is_at (object_cmp object.now) o ≡ false → listed lines.new.entries o ≡ listed lines.old.entries o }
{
    match lines.get_mut(object) {
        Some(line) => {
            line.retain(keeps);
            line.is_empty()
        }
        None => false,
    }
}

// Takes the line of an object away, which has no item.
pub(crate) fn remove_at<T: Drop>(lines: &mut Lines<T>, object: &ObjectId)
    requires { listed lines.old.entries object.now ≡ [] }
    ensures { (o : ObjectId) → listed lines.new.entries o ≡ listed lines.old.entries o }
{
    lines.remove(object);
}
