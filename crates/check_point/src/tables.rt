// Tables that are put over one another.
ghost use Rattle.std.specs.Prelude.{◌≡◌, ◌≤◌, cond, Some, IfOk, OnOk};
ghost use Rattle.std.specs.BTreeMap as tree;
ghost use Rattle.std.specs.Option.{option_or};
ghost use Rattle.indexmap.specs.IndexMap.{get, index_map_len, spare};

use ids_core::NoMemory;
use indexmap::IndexMap;
use std::alloc::Global;
use std::collections::BTreeMap;
use std::hash::Hash;

// Puts the entries of a table over those of another, which has the room for them: a key that is in both
// has the value of the former. It takes no memory.
pub(crate) fn put_over<K: Eq + Hash + Drop, V: Drop>(
    table: &mut IndexMap<K, V>,
    mut entries: IndexMap<K, V>,
)
    requires { index_map_len entries ≤ spare table.old }
    ensures { (key : K) → get K.eq table.new key ≡ option_or (get K.eq entries key) (get K.eq table.old key) }
{
    let _count = entries.len();
    if table.append(&mut entries).is_err() {
        unreachable!();
    }
}

// Puts a value at a key.
pub(crate) fn put<K: Eq + Hash + Drop, V: Drop>(
    table: &mut IndexMap<K, V>,
    key: K,
    value: V,
) -> Result<(), NoMemory>
    ensures { OnOk result ((q : K) → get K.eq table.new q ≡ cond (K.eq key q) (Some value) (get K.eq table.old q)) }
{
    table.insert(key, value)?;
    Ok(())
}

// The entries of a table again, in the order of their keys.
pub(crate) fn in_order<K: Eq + Hash + Ord + Copy, V: Clone + Drop>(
    alloc: Global,
    table: &IndexMap<K, V>,
) -> Result<BTreeMap<K, V>, NoMemory>
    requires { (old new : V) → V.is_clone old new → new ≡ old }
    ensures { IfOk result (λ sorted. (key : K) → tree.get K.cmp sorted key ≡ get K.eq table.now key) }
{
    let mut sorted = BTreeMap::new(alloc);
    for (key, value) in table.iter() {
        put_in_order(&mut sorted, *key, value.clone()?)?;
    }
    Ok(sorted)
}

// Puts a value at a key, in the order of the keys.
fn put_in_order<K: Ord + Drop, V: Drop>(
    sorted: &mut BTreeMap<K, V>,
    key: K,
    value: V,
) -> Result<(), NoMemory>
    ensures { OnOk result ((q : K) → tree.get K.cmp sorted.new q ≡ cond (tree.is_at (K.cmp key) q) (Some value) (tree.get K.cmp sorted.old q)) }
{
    sorted.insert(key, value)?;
    Ok(())
}
