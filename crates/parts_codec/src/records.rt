// Records of the outbox, and transactions that are not folded, as frames.
ghost use Rattle.std.specs.Prelude.{◌≡◌, ◌==◌, ◌++◌, OnOk, IfOk, Err};
ghost use Rattle.std.specs.List.{list_all};
ghost use Rattle.state_codec.specs.declared.writing.NotPut.TheVariants.{Unfit};
ghost use Rattle.state_codec.specs.Reading.{Gives};
ghost use Rattle.journal_asks.specs.Spellings.{commit_of};
ghost use Rattle.parts_codec.specs.Spelling.{sent_bytes, tx_bytes, rest_bytes, IsSpelledSent, IsSpelledTx, IsSpelledRest};
ghost use Rattle.parts_codec.specs.Reading.{sent_of, is_bare, tx_of, sent_at, tx_at, rest_at};

use crate::spell::Spell;
use dc_talk::{Sent, SharedRecord};
use ids_core::NoMemory;
use state_codec::{NotPut, Stop};
use std::alloc::Global;
use tx_core::{Record, RestPart, Stamps, Tx};
use vv_core::{Stamp, Vector};
use wire_codec::{Item, fits_record, fits_tx};

impl Spell for Sent {
    ghost has_bytes = { IsSpelledSent };

    ghost spelled = { sent_bytes };

    ghost reading = { sent_at };

    fn fits(&self) -> bool {
        fits_record(self.item.as_record(), self.hops)
    }

    fn put(&self, out: &mut Vec<u8>) -> Result<(), NotPut> {
        let item = taken!(self.item.as_record().copy());
        let hops = self.hops;
        Item::Rec { item, hops }.put(out)
    }

    #[tactic(auto, unfolding(crate::specs::Reading::sent_at))]
    fn at(alloc: Global, bytes: &[u8]) -> Result<(Self, &[u8]), Stop> {
        let (frame, rest) = found!(Item::at(alloc, bytes));
        match sent_of(alloc, frame) {
            Ok(Some(sent)) => Ok((sent, rest)),
            Ok(None) => Err(Stop::Other),
            Err(_) => Err(Stop::Memory),
        }
    }
}

// The record in a frame, with its hops.
fn sent_of(alloc: Global, frame: Item) -> Result<Option<Sent>, NoMemory>
    ensures { IfOk result (λ sent. sent ≡ sent_of frame) }
{
    match frame {
        Item::Rec { item, hops } => Ok(Some(Sent {
            item: SharedRecord::new(alloc, item)?,
            hops,
        })),
        Item::Rep { .. } => Ok(None),
    }
}

impl Spell for Tx {
    ghost has_bytes = { IsSpelledTx };

    ghost spelled = { tx_bytes };

    ghost reading = { tx_at };

    fn fits(&self) -> bool {
        fits_tx(self.snap.width(), self)
    }

    fn put(&self, out: &mut Vec<u8>) -> Result<(), NotPut> {
        let frame = taken!(frame_of(self));
        frame.put(out)
    }

    #[tactic(auto, unfolding(crate::specs::Reading::tx_at))]
    fn at(alloc: Global, bytes: &[u8]) -> Result<(Self, &[u8]), Stop> {
        let (frame, rest) = found!(Item::at(alloc, bytes));
        match tx_of(frame) {
            Some(tx) => Ok((tx, rest)),
            None => Err(Stop::Other),
        }
    }
}

// The frame of a record that carries the transaction and nothing else.
fn frame_of(tx: &Tx) -> Result<Item, NoMemory>
    ensures { IfOk result (λ frame. frame ≡ commit_of 1 tx.now) }
{
    let item = Record {
        stamp: Stamp { centre: 1, seq: 1 },
        deps: Vector::zero(tx.snap.width()),
        tx: tx.copy()?,
    };
    Ok(Item::Rec { item, hops: 0 })
}

// The transaction in a frame, where that carries nothing else.
fn tx_of(frame: Item) -> Option<Tx>
    ensures { result ≡ tx_of frame }
{
    match frame {
        Item::Rec { item, hops } => {
            if is_bare(&item, hops) {
                Some(item.tx)
            } else {
                None
            }
        }
        Item::Rep { .. } => None,
    }
}

// Whether a record is the first of centre 1, with no dependencies and no hops.
fn is_bare(item: &Record, hops: u8) -> bool
    ensures { result ≡ is_bare item.now hops }
{
    hops == 0 && item.stamp.centre == 1 && item.stamp.seq == 1 && are_none(item.deps.as_slice())
}

// Whether each entry is 0.
fn are_none(entries: &[u32]) -> bool
    ensures { result ≡ list_all (λ entry. entry == 0) entries.now }
{
    entries.iter().all(|entry| *entry == 0)
}

impl Spell for RestPart {
    ghost has_bytes = { IsSpelledRest };

    ghost spelled = { rest_bytes };

    ghost reading = { rest_at };

    fn fits(&self) -> bool {
        self.tx.fits() && self.stamps.fits()
    }

    fn put(&self, out: &mut Vec<u8>) -> Result<(), NotPut> {
        self.tx.put(out)?;
        self.stamps.put(out)
    }

    #[tactic(auto, unfolding(crate::specs::Reading::rest_at))]
    fn at(alloc: Global, bytes: &[u8]) -> Result<(Self, &[u8]), Stop> {
        let (tx, rest) = found!(Tx::at(alloc, bytes));
        let (stamps, rest) = found!(Stamps::at(alloc, rest));
        Ok((RestPart { tx, stamps }, rest))
    }
}
