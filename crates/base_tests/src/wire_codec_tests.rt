// Frames: bytes that were written by hand, and what they are.
use ids_core::{Dot, NoMemory};
use samples::{counter, inc_tx, pair, single};
use std::alloc::Global;
use std::test::Fail;
use tx_core::Record;
use vv_core::Stamp;
use wire_codec::{Decoded, Item, decode, encode};

// A record of one update, in version 1: a transaction that adds 5 to the counter `a`.
const OLD: [u8; 63] = [
    0x53, 1, 1, 1, 0, 0, 0, 0, 0, 0, 0, 1, 1, 0, 0, 0, 0, 0, 0, 0, 0, 0, 0, 0, 1, 0, 0, 0, 0, 0, 0,
    0, 1, 0, 0, 0, 0, 0, 0, 0, 1, 0, 0, 0, 0, 0, 0, 0, 0, 0, 1, 1, 1, 0x61, 1, 0, 0, 0, 0, 0, 0, 0,
    5,
];

// The same in version 2, which says hops.
const NEW: [u8; 64] = [
    0x53, 2, 1, 1, 0, 0, 0, 0, 0, 0, 0, 0, 1, 1, 0, 0, 0, 0, 0, 0, 0, 0, 0, 0, 0, 1, 0, 0, 0, 0, 0,
    0, 0, 1, 0, 0, 0, 0, 0, 0, 0, 1, 0, 0, 0, 0, 0, 0, 0, 0, 0, 1, 1, 1, 0x61, 1, 0, 0, 0, 0, 0, 0,
    0, 5,
];

// The report of centre 1 of two, whose vector is 1,0, in version 1.
const REPORT: [u8; 21] = [
    0x53, 1, 2, 1, 2, 0, 0, 0, 0, 0, 0, 0, 1, 0, 0, 0, 0, 0, 0, 0, 0,
];

// That record.
fn record(alloc: Global) -> Result<Record, Fail> {
    let dot = Dot {
        client: 1,
        number: 1,
    };
    let tx = inc_tx(alloc, dot, 1, single(0), &counter("a")?, &[5])?;
    Ok(Record {
        stamp: Stamp { centre: 1, seq: 1 },
        deps: single(0),
        tx,
    })
}

// How many bytes the frame has that the bytes begin with, if they begin with one.
fn used(alloc: Global, bytes: &[u8]) -> Result<Option<u64>, NoMemory> {
    match decode(alloc, bytes)? {
        Decoded::Whole { used, .. } => Ok(Some(used)),
        _ => Ok(None),
    }
}

// Where the bytes have their first fault, if they have one.
fn place(alloc: Global, bytes: &[u8]) -> Result<Option<u64>, NoMemory> {
    match decode(alloc, bytes)? {
        Decoded::Bad { place } => Ok(Some(place)),
        _ => Ok(None),
    }
}

// Whether the bytes end before their frame does.
fn is_short(alloc: Global, bytes: &[u8]) -> Result<bool, NoMemory> {
    Ok(matches!(decode(alloc, bytes)?, Decoded::Short))
}

// Where the bytes have their first fault once one of them is changed.
fn place_with(alloc: Global, bytes: &[u8], at: usize, byte: u8) -> Result<Option<u64>, NoMemory> {
    let mut changed = bytes.to_vec(alloc)?;
    if let Some(there) = changed.get_mut(at) {
        *there = byte;
    }
    place(alloc, &changed)
}

#[test]
fn a_record_is_written(rt: HostRuntime) -> Result<(), Fail> {
    let item = Item::Rec {
        item: record(rt.alloc())?,
        hops: 0,
    };
    assert!(rt; item.fits());
    let bytes = encode(rt.alloc(), &item)?;
    assert_eq!(rt; bytes.as_slice(), NEW.as_slice());
    Ok(())
}

#[test]
fn a_report_is_written(rt: HostRuntime) -> Result<(), Fail> {
    let item = Item::Rep {
        centre: 1,
        vector: pair(1, 0),
    };
    assert!(rt; item.fits());
    let bytes = encode(rt.alloc(), &item)?;
    let mut want = REPORT.to_vec(rt.alloc())?;
    if let Some(version) = want.get_mut(1) {
        *version = 2;
    }
    assert_eq!(rt; bytes.as_slice(), want.as_slice());
    Ok(())
}

#[test]
fn both_versions_are_read(rt: HostRuntime) -> Result<(), Fail> {
    assert_eq!(rt; used(rt.alloc(), &OLD)?, Some(63));
    assert_eq!(rt; used(rt.alloc(), &NEW)?, Some(64));
    assert_eq!(rt; used(rt.alloc(), &REPORT)?, Some(21));
    Ok(())
}

#[test]
fn fronts_are_short(rt: HostRuntime) -> Result<(), Fail> {
    for count in 0..63 {
        assert!(rt; is_short(rt.alloc(), &OLD[..count])?);
        assert!(rt; is_short(rt.alloc(), &NEW[..count])?);
    }
    for count in 0..21 {
        assert!(rt; is_short(rt.alloc(), &REPORT[..count])?);
    }
    Ok(())
}

#[test]
fn faults_have_their_places(rt: HostRuntime) -> Result<(), Fail> {
    assert_eq!(rt; place_with(rt.alloc(), &OLD, 0, 0)?, Some(0));
    assert_eq!(rt; place_with(rt.alloc(), &OLD, 1, 2)?, Some(13));
    assert_eq!(rt; place_with(rt.alloc(), &OLD, 1, 3)?, Some(1));
    assert_eq!(rt; place_with(rt.alloc(), &OLD, 53, 0x41)?, Some(53));
    assert_eq!(rt; place_with(rt.alloc(), &NEW, 4, 8)?, Some(4));
    assert_eq!(rt; place_with(rt.alloc(), &NEW, 1, 0)?, Some(1));
    Ok(())
}
