// An ask is put behind other bytes, and read from the front of bytes.
ghost use Rattle.std.specs.Prelude.{◌≡◌, ◌≤◌, ◌<◌, ◌⊎◌, ◌++◌, ◌∷◌, ℕ, List, length, drop, Some, None, IfOk, IfSome, IsNone, OnOk};
ghost use Rattle.tx_core.specs.declared.tx.Tx.{Tx as TxOf};
ghost use Rattle.dc_talk.specs.declared.ask.Ask.{Ask as AskOf};
ghost use Rattle.wire_codec.specs.declared.item.Item.TheVariants.{Rec, Rep};
ghost use Rattle.wire_codec.specs.declared.item.TheConstants.{VERSION as WRITTEN};
ghost use Rattle.wire_codec.specs.Spelling.{IsSpelled};
ghost use Rattle.journal_asks.specs.declared.kept_ask.KeptAsk.{KeptAsk as KeptAskOf};
ghost use Rattle.journal_asks.specs.Spellings.{kind_of, commit_of, frame_of, IsSpelledAsk};
ghost use Rattle.journal_asks.specs.Asks.{spelled, IsFront};

use crate::frames::{frame_at, frame_of, kind_of, put_frame};
use crate::kept_ask::KeptAsk;
use dc_talk::{Ask, SharedRecord, SharedTx};
use ids_core::NoMemory;
use journal_file::Item;
use std::alloc::{AllocError, Global};
use tx_core::Record;
use vv_core::Vector;
use wire_codec::Item as Frame;

// The ask of a kind with this frame.
fn framed(alloc: Global, kind: u8, frame: Frame) -> Result<Option<KeptAsk>, NoMemory>
    requires { IsSpelled WRITTEN frame }
    ensures some { IfOk result (λ kept. IfSome kept (λ x. (kind_of x.ask ≡ kind) × (frame_of x.by x.ask ≡ Some frame))) }
    ensures none { IfOk result (λ kept. IsNone kept → (by : ℕ) (ask : AskOf) → kind_of ask ≡ kind → frame_of by ask ≡ Some frame → ⊥) }
{
    match frame {
        Frame::Rec { item, hops } => recorded(alloc, kind, item, hops),
        Frame::Rep { centre, vector } => Ok(reported(kind, centre, vector)),
    }
}

// The ask of a kind with this report in its frame.
fn reported(kind: u8, from: u8, vector: Vector) -> Option<KeptAsk>
    requires { IsSpelled WRITTEN (Rep from vector) }
    ensures some { IfSome result (λ x. (kind_of x.ask ≡ kind) × (frame_of x.by x.ask ≡ Some (Rep from vector))) }
    ensures none { IsNone result → (by : ℕ) (ask : AskOf) → kind_of ask ≡ kind → frame_of by ask ≡ Some (Rep from vector) → ⊥ }
{
    if kind != 2 {
        return None;
    }
    Some(KeptAsk {
        by: 0,
        ask: Ask::Learn { from, vector },
    })
}

// The ask of a kind with this record in its frame.
fn recorded(alloc: Global, kind: u8, item: Record, hops: u8) -> Result<Option<KeptAsk>, NoMemory>
    requires { IsSpelled WRITTEN (Rec item hops) }
    ensures some { IfOk result (λ kept. IfSome kept (λ x. (kind_of x.ask ≡ kind) × (frame_of x.by x.ask ≡ Some (Rec item hops)))) }
    ensures none { IfOk result (λ kept. IsNone kept → (by : ℕ) (ask : AskOf) → kind_of ask ≡ kind → frame_of by ask ≡ Some (Rec item hops) → ⊥) }
{
    match kind {
        1 => Ok(Some(KeptAsk {
            by: 0,
            ask: Ask::Deliver {
                item: SharedRecord::new(alloc, item)?,
                hops,
            },
        })),
        6 => committed(alloc, item, hops),
        _ => Ok(None),
    }
}

// The commit with this record in its frame.
fn committed(alloc: Global, item: Record, hops: u8) -> Result<Option<KeptAsk>, NoMemory>
    requires { IsSpelled WRITTEN (Rec item hops) }
    ensures some { IfOk result (λ kept. IfSome kept (λ x. (kind_of x.ask ≡ 6) × (frame_of x.by x.ask ≡ Some (Rec item hops)))) }
    ensures none { IfOk result (λ kept. IsNone kept → (by : ℕ) (tx : TxOf) → commit_of by tx ≡ Rec item hops → ⊥) }
{
    let none = Vector::zero(item.deps.width());
    if hops != 0 || item.stamp.seq != 1 || item.deps != none {
        return Ok(None);
    }
    Ok(Some(KeptAsk {
        by: item.stamp.centre,
        ask: Ask::Commit {
            tx: SharedTx::new(alloc, item.tx)?,
        },
    }))
}

impl Item for KeptAsk {
    ghost use Rattle.journal_asks.specs.Asks.{spelled};

    ghost spelled = { spelled };

    fn spell(&self, out: &mut Vec<u8>) -> Result<(), AllocError> {
        let alloc = *out.allocator();
        out.push(kind_of(&self.ask))?;
        match frame_of(self.by, &self.ask) {
            Ok(Some(frame)) => put_frame(alloc, out, &frame),
            Ok(None) => Ok(()),
            Err(_) => Err(AllocError),
        }
    }

    fn read(alloc: Global, bytes: &[u8]) -> Result<Option<(Self, usize)>, AllocError> {
        if bytes.is_empty() {
            return Ok(None);
        }
        match read_kind(alloc, bytes[0], &bytes[1..]) {
            Ok(found) => Ok(found),
            Err(_) => Err(AllocError),
        }
    }
}

// The ask of a kind that these bytes have behind it, and how many it has with its kind.
fn read_kind(alloc: Global, kind: u8, bytes: &[u8]) -> Result<Option<(KeptAsk, usize)>, NoMemory>
    ensures { IfOk result (IsFront (kind ∷ bytes.now)) }
{
    match kind {
        3 => Ok(Some(bare(Ask::Prune, kind, bytes))),
        4 => Ok(Some(bare(Ask::Stop, kind, bytes))),
        5 => Ok(Some(bare(Ask::Start, kind, bytes))),
        _ => read_framed(alloc, kind, bytes),
    }
}

// An ask that is its kind alone.
fn bare(ask: Ask, kind: u8, bytes: &[u8]) -> (KeptAsk, usize)
    requires fits { IsSpelledAsk 0 ask }
    requires kind { kind_of ask ≡ kind }
    requires none { (3 ≤ kind) × (kind ≤ 5) }
    ensures { IsFront (kind ∷ bytes.now) (Some result) }
{
    (KeptAsk { by: 0, ask }, 1)
}

// The ask of a kind with whose frame these bytes begin.
fn read_framed(alloc: Global, kind: u8, bytes: &[u8]) -> Result<Option<(KeptAsk, usize)>, NoMemory>
    requires { (kind < 3) ⊎ (5 < kind) }
    ensures { IfOk result (IsFront (kind ∷ bytes.now)) }
{
    match frame_at(alloc, bytes)? {
        Some((frame, count)) => match framed(alloc, kind, frame)? {
            Some(kept) => Ok(Some((kept, 1 + count))),
            None => Ok(None),
        },
        None => Ok(None),
    }
}
