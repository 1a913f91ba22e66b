// The frames of the asks that a journal keeps.
ghost use Rattle.std.specs.Prelude.{◌≡◌, ◌++◌, ℕ, List, length, drop, Some, IfOk, IfSome, OnOk};
ghost use Rattle.wire_codec.specs.declared.item.Item.{Item as FrameOf};
ghost use Rattle.wire_codec.specs.declared.item.TheConstants.{VERSION as WRITTEN};
ghost use Rattle.wire_codec.specs.Spelling.{spelled, IsSpelled};
ghost use Rattle.journal_asks.specs.Spellings.{kind_of, commit_of, frame_of};

use dc_talk::Ask;
use ids_core::NoMemory;
use std::alloc::{AllocError, Global};
use tx_core::{Record, Tx};
use vv_core::{Stamp, Vector};
use wire_codec::{Decoded, Item as Frame, VERSION, decode, encode};

/// The byte of the kind of an ask.
pub fn kind_of(ask: &Ask) -> u8
    ensures { result ≡ kind_of ask.now }
{
    match ask {
        Ask::Deliver { .. } => 1,
        Ask::Learn { .. } => 2,
        Ask::Prune => 3,
        Ask::Stop => 4,
        Ask::Start => 5,
        Ask::Commit { .. } => 6,
        _ => 0,
    }
}

/// The frame of an ask behind its kind, if there is one.
pub fn frame_of(by: u8, ask: &Ask) -> Result<Option<Frame>, NoMemory>
    ensures { IfOk result (λ frame. frame ≡ frame_of by ask.now) }
{
    match ask {
        Ask::Deliver { item, hops } => Ok(Some(Frame::Rec {
            item: item.as_record().copy()?,
            hops: *hops,
        })),
        Ask::Learn { from, vector } => Ok(Some(Frame::Rep {
            centre: *from,
            vector: *vector,
        })),
        Ask::Commit { tx } => Ok(Some(commit_of(by, tx.as_tx())?)),
        _ => Ok(None),
    }
}

// The frame of a commit of a centre.
fn commit_of(by: u8, tx: &Tx) -> Result<Frame, NoMemory>
    ensures { IfOk result (λ frame. frame ≡ commit_of by tx.now) }
{
    let item = Record {
        stamp: Stamp { centre: by, seq: 1 },
        deps: Vector::zero(tx.snap.width()),
        tx: tx.copy()?,
    };
    Ok(Frame::Rec { item, hops: 0 })
}

/// The frame of the written version with which these bytes begin, and how many it has.
pub fn frame_at(alloc: Global, bytes: &[u8]) -> Result<Option<(Frame, usize)>, NoMemory>
    ensures found { IfOk result (λ found. (x : FrameOf) (rest : List ℕ) → IsSpelled WRITTEN x → bytes.now ≡ spelled WRITTEN x ++ rest → found ≡ Some (x, length (spelled WRITTEN x))) }
    ensures fits { IfOk result (λ found. IfSome found (λ p. IsSpelled WRITTEN p.0)) }
    ensures is { IfOk result (λ found. IfSome found (λ p. bytes.now ≡ spelled WRITTEN p.0 ++ drop p.1 bytes.now)) }
    ensures count { IfOk result (λ found. IfSome found (λ p. p.1 ≡ length (spelled WRITTEN p.0))) }
{
    if bytes.len() < 2 || bytes[1] != VERSION {
        return Ok(None);
    }
    match decode(alloc, bytes)? {
        Decoded::Whole { item, used } => Ok(Some((item, used as usize))),
        Decoded::Short => Ok(None),
        Decoded::Bad { place: _ } => Ok(None),
    }
}

/// Puts the bytes of a frame behind others.
pub fn put_frame(alloc: Global, out: &mut Vec<u8>, frame: &Frame) -> Result<(), AllocError>
    requires { IsSpelled WRITTEN frame.now }
    ensures { OnOk result (out.new.items ≡ out.old.items ++ spelled WRITTEN frame.now) }
{
    match encode(alloc, frame) {
        Ok(bytes) => out.extend_from_slice(&bytes),
        Err(_) => Err(AllocError),
    }
}
