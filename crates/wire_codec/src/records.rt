// Fields of a record, of a report, and of a frame.
ghost use Rattle.std.specs.Prelude.{◌≡◌, ◌≤◌};
ghost use Rattle.ids_core.specs.declared.limits.TheConstants.{MOST_CENTRES, MOST_RECORDS};
ghost use Rattle.std.specs.Int.{w64};
ghost use Rattle.wire_codec.specs.Fields.{read, number};
ghost use Rattle.wire_codec.specs.Reading.{Gives, entries_at, tx_at, hops_at, record_at, report_at, item_at, frame_at};

use crate::fault::Stop;
use crate::item::{Item, OLDEST_VERSION, SIGN, VERSION};
use crate::numbers::{u8_at, u16_at, u32_at, u64_at};
use crate::ops::updates_at;
use ids_core::{Dot, MOST_CENTRES, MOST_CLIENTS, MOST_NUMBER, MOST_RECORDS, MOST_UPDATES};
use std::alloc::Global;
use tx_core::{Record, Tx};
use vv_core::{Stamp, Vector};

/// A frame of one of the versions, with that version.
#[tactic(auto, unfolding(crate::specs::Reading::frame_at))]
pub fn frame_at(alloc: Global, bytes: &[u8]) -> Result<((u8, Item), &[u8]), Stop>
    ensures { Gives (λ x. (x.0, x.1.now)) result (frame_at bytes.now) }
{
    let (_, rest) = u8_at(SIGN, SIGN, bytes)?;
    let (version, rest) = u8_at(OLDEST_VERSION, VERSION, rest)?;
    let (kind, rest) = u8_at(1, 2, rest)?;
    let (centre, rest) = u8_at(1, MOST_CENTRES, rest)?;
    let (item, rest) = found!(item_at(alloc, version, kind, centre, rest));
    Ok(((version, item), rest))
}

// An item of a kind.
#[tactic(auto, unfolding(crate::specs::Reading::item_at))]
fn item_at(
    alloc: Global,
    version: u8,
    kind: u8,
    centre: u8,
    bytes: &[u8],
) -> Result<(Item, &[u8]), Stop>
    requires { 1 ≤ centre }
    ensures { Gives (λ x. (x.0, x.1.now)) result (item_at version kind centre bytes.now) }
{
    if kind == 1 {
        record_at(alloc, version, centre, bytes)
    } else {
        report_at(centre, bytes)
    }
}

// A report of a centre.
#[tactic(auto, unfolding(crate::specs::Reading::report_at))]
fn report_at(centre: u8, bytes: &[u8]) -> Result<(Item, &[u8]), Stop>
    requires { 1 ≤ centre }
    ensures { Gives (λ x. (x.0, x.1.now)) result (report_at centre bytes.now) }
{
    let (width, rest) = u8_at(centre, MOST_CENTRES, bytes)?;
    let (vector, rest) = found!(vector_at(width, rest));
    Ok((Item::Rep { centre, vector }, rest))
}

// A record of a centre.
#[tactic(auto, unfolding(crate::specs::Reading::record_at))]
fn record_at(alloc: Global, version: u8, centre: u8, bytes: &[u8]) -> Result<(Item, &[u8]), Stop>
    requires { 1 ≤ centre }
    ensures { Gives (λ x. (x.0, x.1.now)) result (record_at version centre bytes.now) }
{
    let (hops, rest) = hops_at(version, bytes)?;
    let (seq, rest) = seq_at(1, rest)?;
    let (width, rest) = u8_at(centre, MOST_CENTRES, rest)?;
    let (deps, rest) = found!(vector_at(width, rest));
    let (tx, rest) = found!(tx_at(alloc, width, rest));
    let stamp = Stamp { centre, seq };
    let item = Record { stamp, deps, tx };
    Ok((Item::Rec { item, hops }, rest))
}

// The hops, which the oldest version does not say.
#[tactic(auto, unfolding(crate::specs::Reading::hops_at))]
fn hops_at(version: u8, bytes: &[u8]) -> Result<(u8, &[u8]), Stop>
    ensures { Gives (λ x. (x.0, x.1.now)) result (hops_at version bytes.now) }
{
    if version == OLDEST_VERSION {
        Ok((0, bytes))
    } else {
        u8_at(0, MOST_CENTRES - 1, bytes)
    }
}

// A transaction whose snapshot is so wide.
#[tactic(auto, unfolding(crate::specs::Reading::tx_at))]
fn tx_at(alloc: Global, width: u8, bytes: &[u8]) -> Result<(Tx, &[u8]), Stop>
    requires { (1 ≤ width) × (width ≤ MOST_CENTRES) }
    ensures { Gives (λ x. (x.0, x.1.now)) result (tx_at width bytes.now) }
{
    let (client, rest) = u32_at(1, MOST_CLIENTS, bytes)?;
    let (number, rest) = u64_at(1, MOST_NUMBER, rest)?;
    let (rank, rest) = u64_at(1, MOST_NUMBER, rest)?;
    let (snap, rest) = found!(vector_at(width, rest));
    let (count, rest) = u16_at(1, MOST_UPDATES as u16, rest)?;
    let (updates, rest) = found!(updates_at(alloc, count, rest));
    let dot = Dot { client, number };
    Ok((
        Tx {
            dot,
            rank,
            snap,
            updates,
        },
        rest,
    ))
}

// So many entries of a vector.
fn vector_at(width: u8, bytes: &[u8]) -> Result<(Vector, &[u8]), Stop>
    requires { (1 ≤ width) × (width ≤ MOST_CENTRES) }
    ensures { Gives (λ x. (x.0, x.1.now)) result (entries_at width bytes.now) }
{
    let mut vector = Vector::zero(width);
    let mut rest = bytes;
    for place in 0..width {
        let (seq, behind) = seq_at(0, rest)?;
        let centre = place + 1;
        vector.raise_by(&Stamp { centre, seq });
        rest = behind;
    }
    Ok((vector, rest))
}

// The number of a record of a centre, which takes eight bytes.
fn seq_at(low: u32, bytes: &[u8]) -> Result<(u32, &[u8]), Stop>
    ensures { Gives (λ x. (x.0, x.1.now)) result (read (number w64 low MOST_RECORDS) bytes.now) }
{
    let (seq, rest) = u64_at(u64::from(low), u64::from(MOST_RECORDS), bytes)?;
    Ok((seq as u32, rest))
}
