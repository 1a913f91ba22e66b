// What an item is.
ghost use Rattle.std.specs.Prelude.{◌≡◌, IfOk};
ghost use Rattle.link_frames.specs.Reading.{record_in, whole_of, read_whole};

use dc_talk::{FrameFault, Sent, SharedRecord};
use ids_core::NoMemory;
use std::alloc::Global;
use tx_core::{Record, Tx};
use wire_codec::{Decoded, Item, decode};

/// The record with its hops whose frame the bytes are, or why they are the frame of none. Else it fails for want of
/// memory alone.
#[tactic(auto, using(crate::proofs::Items::read_by))]
pub fn read_item(alloc: Global, bytes: &[u8]) -> Result<Result<Sent, FrameFault>, NoMemory>
    ensures { IfOk result (λ read. read ≡ read_whole bytes.now) }
{
    let decoded = decode(alloc, bytes)?;
    whole_of(alloc, bytes.len() as u64, decoded)
}

// What an item of so many bytes is, by what its bytes are.
fn whole_of(
    alloc: Global,
    count: u64,
    decoded: Decoded,
) -> Result<Result<Sent, FrameFault>, NoMemory>
    ensures { IfOk result (λ read. read ≡ whole_of count decoded) }
{
    match decoded {
        Decoded::Whole { item, used } => {
            if used == count {
                record_in(alloc, item)
            } else {
                Ok(Err(FrameFault::Rest { used }))
            }
        }
        Decoded::Short => Ok(Err(FrameFault::Short)),
        Decoded::Bad { place } => Ok(Err(FrameFault::Bad { place })),
    }
}

// The record in a frame, if it holds one.
fn record_in(alloc: Global, item: Item) -> Result<Result<Sent, FrameFault>, NoMemory>
    ensures { IfOk result (λ read. read ≡ record_in item) }
{
    match item {
        Item::Rec { item, hops } => Ok(Ok(Sent {
            item: SharedRecord::new(alloc, shared(item)?)?,
            hops,
        })),
        Item::Rep { .. } => Ok(Err(FrameFault::Report)),
    }
}

// The same record, whose updates copies share.
fn shared(item: Record) -> Result<Record, NoMemory>
    ensures { IfOk result (λ shared. shared ≡ item) }
{
    let Record { stamp, deps, tx } = item;
    let Tx {
        dot,
        rank,
        snap,
        updates,
    } = tx;
    match updates.share() {
        Ok(updates) => Ok(Record {
            stamp,
            deps,
            tx: Tx {
                dot,
                rank,
                snap,
                updates,
            },
        }),
        Err(_) => Err(NoMemory),
    }
}
