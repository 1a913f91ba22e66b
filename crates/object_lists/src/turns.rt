// What is listed of whole transactions, put in and taken away.
ghost use Rattle.std.specs.Prelude.{◌≡◌, ◌≤◌, ◌++◌, ◌∷◌, ◌-◌, [], false, length, take, drop, map, OnOk, OnErr};
ghost use Rattle.ids_core.specs.Ids.{same_object};
ghost use Rattle.ids_core.specs.declared.limits.TheConstants.{MOST_UPDATES};
ghost use Rattle.ids_core.specs.declared.object.ObjectId.{ObjectId};
ghost use Rattle.tx_core.specs.Operations.{ops_from, ops_of};
ghost use Rattle.object_lists.specs.Listed.{listed, counted};

use crate::entry::Entry;
use crate::lists::ObjectLists;
use ids_core::{Dot, Mark, NoMemory, OpId};
use tx_core::{Tx, Update};

/// Puts what is listed of the operations of a transaction behind all others, under its number. An `Err`
/// leaves all lists as they were.
pub fn put_tx<T: Entry>(lists: &mut ObjectLists<T>, number: u64, tx: &Tx) -> Result<(), NoMemory>
    requires { length tx.now.updates ≤ MOST_UPDATES }
    ensures ok { OnOk result ((o : ObjectId) → listed lists.new o ≡ listed lists.old o ++ map (T.entry_of number) (ops_of o tx.now)) }
    ensures err { OnErr result ((o : ObjectId) → listed lists.new o ≡ listed lists.old o) }
{
    let updates = tx.updates.as_slice();
    let count = put_all(lists, number, tx.rank, &tx.dot, updates);
    if count < updates.len() {
        take_last_of(lists, &updates[..count]);
        return Err(NoMemory);
    }
    Ok(())
}

// Puts what is listed of the operations in, until memory is refused: of how many.
fn put_all<T: Entry>(
    lists: &mut ObjectLists<T>,
    number: u64,
    rank: u64,
    dot: &Dot,
    updates: &[Update],
) -> usize
    requires { length updates.now ≤ MOST_UPDATES }
    ensures count { result ≤ length updates.now }
    ensures listed { (o : ObjectId) → listed lists.new o ≡ listed lists.old o ++ map (T.entry_of number) (ops_from o rank dot.now 0 (take result updates.now)) }
{
    for (place, update) in updates.iter().enumerate() {
        let id = OpId {
            dot: *dot,
            place: place as u16,
        };
        let mark = Mark { rank, id };
        if put_update(lists, number, mark, update).is_err() {
            return place;
        }
    }
    updates.len()
}

// Puts what is listed of the operation of an update behind all others on its object. An `Err` leaves all
// lists as they were.
fn put_update<T: Entry>(
    lists: &mut ObjectLists<T>,
    number: u64,
    mark: Mark,
    update: &Update,
) -> Result<(), NoMemory>
    ensures there { OnOk result (listed lists.new update.now.object ≡ listed lists.old update.now.object ++ T.entry_of number (mark, update.now.op) ∷ []) }
    ensures apart { (o : ObjectId) → same_object update.now.object o ≡ false → listed lists.new o ≡ listed lists.old o }
    ensures err { OnErr result (listed lists.new update.now.object ≡ listed lists.old update.now.object) }
{
    let op = update.op.copy()?;
    lists.put(&update.object, T::of(number, mark, op))
}

/// Takes as many items at the end of each list away as the transaction has operations on the object. It
/// takes no memory.
pub fn take_last_tx<T: Drop>(lists: &mut ObjectLists<T>, tx: &Tx)
    ensures { (o : ObjectId) → listed lists.new o ≡ take (length (listed lists.old o) - counted o tx.now.updates) (listed lists.old o) }
{
    take_last_of(lists, tx.updates.as_slice());
}

// Takes as many items at the end of each list away as the updates have operations on the object.
fn take_last_of<T: Drop>(lists: &mut ObjectLists<T>, updates: &[Update])
    ensures { (o : ObjectId) → listed lists.new o ≡ take (length (listed lists.old o) - counted o updates.now) (listed lists.old o) }
{
    for update in updates {
        lists.take_last(&update.object);
    }
}

/// Takes as many items at the front of each list away as the transaction has operations on the object. It
/// takes no memory.
pub fn take_first_tx<T: Drop>(lists: &mut ObjectLists<T>, tx: &Tx)
    ensures { (o : ObjectId) → listed lists.new o ≡ drop (counted o tx.now.updates) (listed lists.old o) }
{
    take_first_of(lists, tx.updates.as_slice());
}

// Takes as many items at the front of each list away as the updates have operations on the object.
fn take_first_of<T: Drop>(lists: &mut ObjectLists<T>, updates: &[Update])
    ensures { (o : ObjectId) → listed lists.new o ≡ drop (counted o updates.now) (listed lists.old o) }
{
    for update in updates {
        lists.take_first(&update.object);
    }
}
