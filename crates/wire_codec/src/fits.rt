// Which items have a spelling.
ghost use Rattle.std.specs.Prelude.{◌≡◌, ◌≤◌, ◌↔◌, length, All, IsTrue};
ghost use Rattle.ids_core.specs.declared.limits.TheConstants.{MOST_CLIENTS, MOST_NUMBER};
ghost use Rattle.ids_core.specs.Name.{IsName};
ghost use Rattle.tx_core.specs.Checks.{is_within, IsTag};
ghost use Rattle.wire_codec.specs.declared.item.TheConstants.{VERSION};
ghost use Rattle.wire_codec.specs.Spelling.{IsSpelled, IsSpelledRecord, IsSpelledTx, IsSpelledUpdate, IsSpelledOp, IsVectorOf, AreEntries, AreTags};

use crate::item::Item;
use crate::numbers::is_within;
use ids_core::{
    Dot, MOST_CENTRES, MOST_CLIENTS, MOST_NUMBER, MOST_RECORDS, MOST_TAGS, MOST_UPDATES, Name,
    OpId, Tags,
};
use tx_core::{Op, Record, Tx, Update, is_small_delta};
use vv_core::Vector;

impl Item {
    /// Whether the item has a spelling in the version that is written. It takes no memory.
    pub fn fits(&self) -> bool
        ensures { IsTrue result ↔ IsSpelled VERSION self.now }
    {
        match self {
            Item::Rec { item, hops } => fits_record(item, *hops),
            Item::Rep { centre, vector } => is_vector_of(*centre, vector),
        }
    }
}

/// Whether a record with its hops has the fields of the version that is written. It takes no memory.
pub fn fits_record(item: &Record, hops: u8) -> bool
    ensures { IsTrue result ↔ IsSpelledRecord VERSION item.now hops }
{
    is_within(0, u64::from(MOST_CENTRES - 1), u64::from(hops))
        && is_within(1, u64::from(MOST_RECORDS), u64::from(item.stamp.seq))
        && is_vector_of(item.stamp.centre, &item.deps)
        && fits_tx(item.deps.width(), &item.tx)
}

fn is_vector_of(centre: u8, vector: &Vector) -> bool
    ensures { IsTrue result ↔ IsVectorOf centre vector.now }
{
    is_within(1, u64::from(vector.width()), u64::from(centre)) && are_entries(vector)
}

fn are_entries(vector: &Vector) -> bool
    ensures { IsTrue result ↔ AreEntries vector.now }
{
    vector.as_slice().iter().all(|entry| *entry <= MOST_RECORDS)
}

/// Whether a transaction has fields, where the vectors of its record have so many entries. It takes no memory.
pub fn fits_tx(width: u8, tx: &Tx) -> bool
    ensures { IsTrue result ↔ IsSpelledTx width tx.now }
{
    let updates = tx.updates.as_slice();
    is_dot(&tx.dot)
        && is_within(1, MOST_NUMBER, tx.rank)
        && tx.snap.width() == width
        && are_entries(&tx.snap)
        && is_within(1, MOST_UPDATES, updates.len() as u64)
        && fit_updates(updates)
}

fn is_dot(dot: &Dot) -> bool
    ensures { IsTrue result ↔ ((1 ≤ dot.now.client) × (dot.now.client ≤ MOST_CLIENTS) × (1 ≤ dot.now.number) × (dot.now.number ≤ MOST_NUMBER)) }
{
    is_within(1, u64::from(MOST_CLIENTS), u64::from(dot.client))
        && is_within(1, MOST_NUMBER, dot.number)
}

fn fit_updates(updates: &[Update]) -> bool
    ensures { IsTrue result ↔ All IsSpelledUpdate updates.now }
{
    updates.iter().all(|update| fits_update(update))
}

fn fits_update(update: &Update) -> bool
    ensures { IsTrue result ↔ IsSpelledUpdate update.now }
{
    see(&update.object.name);
    update.op.sort() == update.object.sort && fits_op(&update.op)
}

fn fits_op(op: &Op) -> bool
    ensures { IsTrue result ↔ IsSpelledOp op.now }
{
    match op {
        Op::Inc { delta } => is_small_delta(*delta),
        Op::Write { word } => {
            see(word);
            true
        }
        Op::Add { word, over } | Op::Remove { word, over } => {
            see(word);
            are_tags(over)
        }
        Op::Put { key, word, over } => {
            see(key);
            see(word);
            are_tags(over)
        }
        Op::Erase { key, over } => {
            see(key);
            are_tags(over)
        }
    }
}

// What each name is.
fn see(name: &Name)
    ensures { IsName name.now }
{
    let _bytes = name.as_slice();
}

fn are_tags(tags: &Tags) -> bool
    ensures { IsTrue result ↔ AreTags tags.now }
{
    let ids = tags.as_slice();
    ids.len() as u64 <= MOST_TAGS && are_ids(ids)
}

fn are_ids(ids: &[OpId]) -> bool
    ensures { IsTrue result ↔ All IsTag ids.now }
{
    ids.iter().all(|id| is_tag(id))
}

fn is_tag(id: &OpId) -> bool
    ensures { IsTrue result ↔ IsTag id.now }
{
    is_dot(&id.dot) && is_within(0, MOST_UPDATES - 1, u64::from(id.place))
}
