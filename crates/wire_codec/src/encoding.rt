// The bytes of an item.
ghost use Rattle.std.specs.Prelude.{◌≡◌, ◌≤◌, ◌+◌, ◌++◌, ◌∷◌, length, All, IfOk, OnOk};
ghost use Rattle.std.specs.List.{flat_map};
ghost use Rattle.ids_core.specs.declared.limits.TheConstants.{MOST_TAGS, MOST_UPDATES};
ghost use Rattle.ids_core.specs.Orders.{sort_number};
ghost use Rattle.wire_codec.specs.declared.item.Item.TheVariants.{Rec, Rep};
ghost use Rattle.wire_codec.specs.declared.item.TheConstants.{VERSION};
ghost use Rattle.wire_codec.specs.Spelling.{u16_bytes, u32_bytes, u64_bytes, name_bytes, tag_bytes, tags_bytes, delta_bytes, op_bytes, update_bytes, entries_bytes, tx_bytes, record_bytes, spelled, IsSpelled, IsSpelledUpdate, IsSpelledOp};

use crate::item::{Item, SIGN, VERSION};
use ids_core::{Name, NoMemory, OpId, Sort, Tags};
use std::alloc::{AllocError, Global};
use tx_core::{Op, Record, Tx, Update};
use vv_core::Vector;

/// The bytes of an item that fits.
pub fn encode(alloc: Global, item: &Item) -> Result<Vec<u8>, NoMemory>
    requires { IsSpelled VERSION item.now }
    ensures { IfOk result (λ bytes. bytes.items ≡ spelled VERSION item.now) }
{
    match item {
        Item::Rec { item, hops } => encode_record(alloc, item, *hops),
        Item::Rep { centre, vector } => encode_report(alloc, *centre, vector),
    }
}

/// The bytes of a record with its hops that fits.
pub fn encode_record(alloc: Global, item: &Record, hops: u8) -> Result<Vec<u8>, NoMemory>
    requires { IsSpelled VERSION (Rec item.now hops) }
    ensures { IfOk result (λ bytes. bytes.items ≡ spelled VERSION (Rec item.now hops)) }
{
    let mut out = Vec::with_capacity(alloc, room(item))?;
    out.extend_from_slice(&[SIGN, VERSION, 1, item.stamp.centre])?;
    put_record(&mut out, item, hops)?;
    Ok(out)
}

// About how many bytes a record has: enough for one without tags.
fn room(item: &Record) -> usize {
    let count = item.tx.updates.len().min(256);
    36 + 16 * item.deps.as_slice().len() + 64 * count
}

// The bytes of a centre's report.
fn encode_report(alloc: Global, centre: u8, vector: &Vector) -> Result<Vec<u8>, NoMemory>
    requires { IsSpelled VERSION (Rep centre vector.now) }
    ensures { IfOk result (λ bytes. bytes.items ≡ spelled VERSION (Rep centre vector.now)) }
{
    let mut out = Vec::with_capacity(alloc, 5 + 8 * vector.as_slice().len())?;
    out.extend_from_slice(&[SIGN, VERSION, 2, centre, vector.width()])?;
    put_entries(&mut out, vector)?;
    Ok(out)
}

fn put_record(out: &mut Vec<u8>, item: &Record, hops: u8) -> Result<(), AllocError>
    requires few { length item.now.tx.updates ≤ MOST_UPDATES }
    requires each { All IsSpelledUpdate item.now.tx.updates }
    ensures { OnOk result (out.new.items ≡ out.old.items ++ record_bytes VERSION item.now hops) }
{
    out.push(hops)?;
    put_u64(out, u64::from(item.stamp.seq))?;
    out.push(item.deps.width())?;
    put_entries(out, &item.deps)?;
    put_tx(out, &item.tx)
}

fn put_tx(out: &mut Vec<u8>, tx: &Tx) -> Result<(), AllocError>
    requires few { length tx.now.updates ≤ MOST_UPDATES }
    requires each { All IsSpelledUpdate tx.now.updates }
    ensures { OnOk result (out.new.items ≡ out.old.items ++ tx_bytes tx.now) }
{
    put_u32(out, tx.dot.client)?;
    put_u64(out, tx.dot.number)?;
    put_u64(out, tx.rank)?;
    put_entries(out, &tx.snap)?;
    let updates = tx.updates.as_slice();
    put_u16(out, updates.len() as u16)?;
    put_updates(out, updates)
}

fn put_entries(out: &mut Vec<u8>, vector: &Vector) -> Result<(), AllocError>
    ensures { OnOk result (out.new.items ≡ out.old.items ++ entries_bytes vector.now) }
{
    let entries = vector.as_slice();
    for entry in entries {
        put_u64(out, u64::from(*entry))?;
    }
    Ok(())
}

#[tactic(auto, unfolding(crate::specs::Spelling::u16_bytes))]
fn put_u16(out: &mut Vec<u8>, number: u16) -> Result<(), AllocError>
    ensures { OnOk result (out.new.items ≡ out.old.items ++ u16_bytes number) }
{
    out.extend_from_slice(&number.to_be_bytes())
}

#[tactic(auto, unfolding(crate::specs::Spelling::u32_bytes))]
fn put_u32(out: &mut Vec<u8>, number: u32) -> Result<(), AllocError>
    ensures { OnOk result (out.new.items ≡ out.old.items ++ u32_bytes number) }
{
    out.extend_from_slice(&number.to_be_bytes())
}

#[tactic(auto, unfolding(crate::specs::Spelling::u64_bytes))]
fn put_u64(out: &mut Vec<u8>, number: u64) -> Result<(), AllocError>
    ensures { OnOk result (out.new.items ≡ out.old.items ++ u64_bytes number) }
{
    out.extend_from_slice(&number.to_be_bytes())
}

fn put_updates(out: &mut Vec<u8>, updates: &[Update]) -> Result<(), AllocError>
    requires { All IsSpelledUpdate updates.now }
    ensures { OnOk result (out.new.items ≡ out.old.items ++ flat_map update_bytes updates.now) }
{
    for update in updates {
        put_update(out, update)?;
    }
    Ok(())
}

fn put_update(out: &mut Vec<u8>, update: &Update) -> Result<(), AllocError>
    requires { IsSpelledOp update.now.op }
    ensures { OnOk result (out.new.items ≡ out.old.items ++ update_bytes update.now) }
{
    out.push(sort_byte(update.object.sort))?;
    put_name(out, &update.object.name)?;
    put_op(out, &update.op)
}

fn sort_byte(sort: Sort) -> u8
    ensures { result ≡ sort_number sort + 1 }
{
    match sort {
        Sort::Counter => 1,
        Sort::Register => 2,
        Sort::Set => 3,
        Sort::Map => 4,
    }
}

fn put_op(out: &mut Vec<u8>, op: &Op) -> Result<(), AllocError>
    requires { IsSpelledOp op.now }
    ensures { OnOk result (out.new.items ≡ out.old.items ++ op_bytes op.now) }
{
    match op {
        Op::Inc { delta } => {
            out.push(1)?;
            put_delta(out, *delta)
        }
        Op::Write { word } => put_word(out, 2, word),
        Op::Add { word, over } => {
            put_word(out, 3, word)?;
            put_tags(out, over)
        }
        Op::Remove { word, over } => {
            put_word(out, 4, word)?;
            put_tags(out, over)
        }
        Op::Put { key, word, over } => {
            put_word(out, 5, key)?;
            put_name(out, word)?;
            put_tags(out, over)
        }
        Op::Erase { key, over } => {
            put_word(out, 6, key)?;
            put_tags(out, over)
        }
    }
}

#[tactic(auto, unfolding(crate::specs::Spelling::u64_bytes))]
fn put_delta(out: &mut Vec<u8>, delta: i64) -> Result<(), AllocError>
    ensures { OnOk result (out.new.items ≡ out.old.items ++ delta_bytes delta) }
{
    out.extend_from_slice(&delta.to_be_bytes())
}

// A code, and a name.
fn put_word(out: &mut Vec<u8>, code: u8, word: &Name) -> Result<(), AllocError>
    ensures { OnOk result (out.new.items ≡ out.old.items ++ (code ∷ name_bytes word.now)) }
{
    out.push(code)?;
    put_name(out, word)
}

fn put_name(out: &mut Vec<u8>, name: &Name) -> Result<(), AllocError>
    ensures { OnOk result (out.new.items ≡ out.old.items ++ name_bytes name.now) }
{
    let bytes = name.as_slice();
    out.push(bytes.len() as u8)?;
    out.extend_from_slice(bytes)
}

fn put_tags(out: &mut Vec<u8>, tags: &Tags) -> Result<(), AllocError>
    requires { length tags.now ≤ MOST_TAGS }
    ensures { OnOk result (out.new.items ≡ out.old.items ++ tags_bytes tags.now) }
{
    let ids = tags.as_slice();
    out.reserve(2 + 14 * ids.len())?;
    put_u16(out, ids.len() as u16)?;
    put_ids(out, ids)
}

fn put_ids(out: &mut Vec<u8>, ids: &[OpId]) -> Result<(), AllocError>
    ensures { OnOk result (out.new.items ≡ out.old.items ++ flat_map tag_bytes ids.now) }
{
    for id in ids {
        put_id(out, id)?;
    }
    Ok(())
}

fn put_id(out: &mut Vec<u8>, id: &OpId) -> Result<(), AllocError>
    ensures { OnOk result (out.new.items ≡ out.old.items ++ tag_bytes id.now) }
{
    put_u32(out, id.dot.client)?;
    put_u64(out, id.dot.number)?;
    put_u16(out, id.place)
}
