// The bytes of a state.
ghost use Rattle.std.specs.Prelude.{◌≡◌, ◌↔◌, ◌++◌, ◌∷◌, OnOk, OnErr, Err, IfOk};
ghost use Rattle.std.specs.List.{flat_map};
ghost use Rattle.wire_codec.specs.Spelling.{u16_bytes, u32_bytes, u64_bytes, name_bytes, tag_bytes, delta_bytes};
ghost use Rattle.state_codec.specs.declared.writing.NotPut.TheVariants.{Unfit};
ghost use Rattle.state_codec.specs.Spelling.{sum_bytes, last_bytes, place_bytes, member_bytes, kept_bytes, entry_bytes, list_bytes, spelled, IsSpelled, part_bytes, IsSpelledPart};

use crate::state::{PlainPart, PlainState};
use ids_core::{Mark, Name, OpId};
use obj_map::Put;
use obj_register::RegisterOp;
use std::alloc::AllocError;
use tally_core::{Cell, Place};

/// Why something was not put.
#[derive(Clone, Copy)]
pub enum NotPut {
    /// It has no bytes.
    Unfit,
    /// Memory ran out.
    NoMemory,
}

/// Puts the bytes of a state behind others. An `Err` leaves those as they were. It is `Unfit` exactly where the state has no
/// bytes: a number is out of range, a tally is 0, something is kept where no put is live or nothing where one is, or the
/// places do not ascend.
pub fn put_state(out: &mut Vec<u8>, state: &PlainState) -> Result<(), NotPut>
    ensures ok { OnOk result (out.new.items ≡ out.old.items ++ spelled state.now) }
    ensures err { OnErr result (out.new.items ≡ out.old.items) }
    ensures unfit { result ≡ Err Unfit ↔ (IsSpelled state.now → ⊥) }
{
    if !state.fits() {
        return Err(NotPut::Unfit);
    }
    match put_all(out, state) {
        Ok(()) => Ok(()),
        Err(_) => Err(NotPut::NoMemory),
    }
}

// The same of a state that has bytes.
fn put_all(out: &mut Vec<u8>, state: &PlainState) -> Result<(), AllocError>
    ensures ok { OnOk result (out.new.items ≡ out.old.items ++ spelled state.now) }
    ensures err { OnErr result (out.new.items ≡ out.old.items) }
{
    let mut bytes = Vec::new(*out.allocator());
    put_plain(&mut bytes, state)?;
    out.extend_from_slice(&bytes)
}

/// Puts the bytes of an object and its state behind others. An `Err` leaves those as they were. It is `Unfit` exactly where the
/// state has no bytes, as for `put_state`.
pub fn put_part(out: &mut Vec<u8>, part: &PlainPart) -> Result<(), NotPut>
    ensures ok { OnOk result (out.new.items ≡ out.old.items ++ part_bytes part.now) }
    ensures err { OnErr result (out.new.items ≡ out.old.items) }
    ensures unfit { result ≡ Err Unfit ↔ (IsSpelledPart part.now → ⊥) }
{
    if !part.fits() {
        return Err(NotPut::Unfit);
    }
    match put_both(out, part) {
        Ok(()) => Ok(()),
        Err(_) => Err(NotPut::NoMemory),
    }
}

// The same of a state that has bytes.
fn put_both(out: &mut Vec<u8>, part: &PlainPart) -> Result<(), AllocError>
    ensures ok { OnOk result (out.new.items ≡ out.old.items ++ part_bytes part.now) }
    ensures err { OnErr result (out.new.items ≡ out.old.items) }
{
    let mut bytes = Vec::new(*out.allocator());
    put_name(&mut bytes, &part.name)?;
    put_plain(&mut bytes, &part.state)?;
    out.extend_from_slice(&bytes)
}

fn put_plain(out: &mut Vec<u8>, state: &PlainState) -> Result<(), AllocError>
    ensures { OnOk result (out.new.items ≡ out.old.items ++ spelled state.now) }
{
    match state {
        PlainState::Counter(sum) => {
            out.push(1)?;
            put_sum(out, *sum)
        }
        PlainState::Register(last) => {
            out.push(2)?;
            put_last(out, last)
        }
        PlainState::Set(tallies) => {
            out.push(3)?;
            put_members(out, tallies.as_slice())
        }
        PlainState::Map(tallies) => {
            out.push(4)?;
            put_entries(out, tallies.as_slice())
        }
    }
}

fn put_sum(out: &mut Vec<u8>, sum: i128) -> Result<(), AllocError>
    ensures { OnOk result (out.new.items ≡ out.old.items ++ sum_bytes sum) }
{
    let bits = sum.cast_unsigned();
    put_u64(out, (bits / 18_446_744_073_709_551_616) as u64)?;
    put_u64(out, (bits % 18_446_744_073_709_551_616) as u64)
}

fn put_last(out: &mut Vec<u8>, last: &Option<(Mark, RegisterOp)>) -> Result<(), AllocError>
    ensures { OnOk result (out.new.items ≡ out.old.items ++ last_bytes last.now) }
{
    match last {
        None => {
            out.push(0)?;
            Ok(())
        }
        Some((mark, op)) => {
            out.push(1)?;
            put_u64(out, mark.rank)?;
            put_id(out, &mark.id)?;
            put_name(out, &op.word)
        }
    }
}

fn put_members(out: &mut Vec<u8>, list: &[(Place, Cell<()>)]) -> Result<(), AllocError>
    ensures { OnOk result (out.new.items ≡ out.old.items ++ list_bytes member_bytes list.now) }
{
    put_u64(out, list.len() as u64)?;
    put_each_member(out, list)
}

fn put_each_member(out: &mut Vec<u8>, list: &[(Place, Cell<()>)]) -> Result<(), AllocError>
    ensures { OnOk result (out.new.items ≡ out.old.items ++ flat_map member_bytes list.now) }
{
    for member in list {
        put_member(out, member)?;
    }
    Ok(())
}

fn put_member(out: &mut Vec<u8>, member: &(Place, Cell<()>)) -> Result<(), AllocError>
    ensures { OnOk result (out.new.items ≡ out.old.items ++ member_bytes member.now) }
{
    put_place(out, &member.0)?;
    put_tally(out, member.1.count)
}

fn put_entries(out: &mut Vec<u8>, list: &[(Place, Cell<Put>)]) -> Result<(), AllocError>
    ensures { OnOk result (out.new.items ≡ out.old.items ++ list_bytes entry_bytes list.now) }
{
    put_u64(out, list.len() as u64)?;
    put_each_entry(out, list)
}

fn put_each_entry(out: &mut Vec<u8>, list: &[(Place, Cell<Put>)]) -> Result<(), AllocError>
    ensures { OnOk result (out.new.items ≡ out.old.items ++ flat_map entry_bytes list.now) }
{
    for entry in list {
        put_entry(out, entry)?;
    }
    Ok(())
}

fn put_entry(out: &mut Vec<u8>, entry: &(Place, Cell<Put>)) -> Result<(), AllocError>
    ensures { OnOk result (out.new.items ≡ out.old.items ++ entry_bytes entry.now) }
{
    put_place(out, &entry.0)?;
    put_tally(out, entry.1.count)?;
    put_kept(out, &entry.1.kept)
}

fn put_kept(out: &mut Vec<u8>, kept: &Option<Put>) -> Result<(), AllocError>
    ensures { OnOk result (out.new.items ≡ out.old.items ++ kept_bytes kept.now) }
{
    match kept {
        None => Ok(()),
        Some(put) => {
            put_u64(out, put.rank)?;
            put_name(out, &put.word)
        }
    }
}

fn put_place(out: &mut Vec<u8>, place: &Place) -> Result<(), AllocError>
    ensures { OnOk result (out.new.items ≡ out.old.items ++ place_bytes place.now) }
{
    put_name(out, &place.name)?;
    put_id(out, &place.id)
}

fn put_name(out: &mut Vec<u8>, name: &Name) -> Result<(), AllocError>
    ensures { OnOk result (out.new.items ≡ out.old.items ++ name_bytes name.now) }
{
    let bytes = name.as_slice();
    out.push(bytes.len() as u8)?;
    out.extend_from_slice(bytes)
}

fn put_id(out: &mut Vec<u8>, id: &OpId) -> Result<(), AllocError>
    ensures { OnOk result (out.new.items ≡ out.old.items ++ tag_bytes id.now) }
{
    put_u32(out, id.dot.client)?;
    put_u64(out, id.dot.number)?;
    put_u16(out, id.place)
}

#[tactic(auto, using(crate::proofs::Bytes::u16_is))]
fn put_u16(out: &mut Vec<u8>, number: u16) -> Result<(), AllocError>
    ensures { OnOk result (out.new.items ≡ out.old.items ++ u16_bytes number) }
{
    out.extend_from_slice(&number.to_be_bytes())
}

/// Puts a number in four bytes behind others, the greatest byte first. After an `Err` some of them may stand there.
#[tactic(auto, using(crate::proofs::Bytes::u32_is))]
pub fn put_u32(out: &mut Vec<u8>, number: u32) -> Result<(), AllocError>
    ensures { OnOk result (out.new.items ≡ out.old.items ++ u32_bytes number) }
{
    out.extend_from_slice(&number.to_be_bytes())
}

/// Puts a number in eight bytes behind others, the greatest byte first. After an `Err` some of them may stand there.
#[tactic(auto, using(crate::proofs::Bytes::u64_is))]
pub fn put_u64(out: &mut Vec<u8>, number: u64) -> Result<(), AllocError>
    ensures { OnOk result (out.new.items ≡ out.old.items ++ u64_bytes number) }
{
    out.extend_from_slice(&number.to_be_bytes())
}

#[tactic(auto, using(crate::proofs::Bytes::u64_is))]
fn put_tally(out: &mut Vec<u8>, count: i64) -> Result<(), AllocError>
    ensures { OnOk result (out.new.items ≡ out.old.items ++ delta_bytes count) }
{
    out.extend_from_slice(&count.to_be_bytes())
}
