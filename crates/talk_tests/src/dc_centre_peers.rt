// What a centre answers to deliveries, and what it hands on of them.
use crate::records::{record, tx_of};
use dc_centre::Centre;
use dc_talk::{Ask, Say, Sent, SharedTx};
use ids_core::NoMemory;
use std::alloc::Global;
use std::process::Abort;
use std::test::Fail;
use vv_core::Stamp;

// What is told of an answer to a delivery: a word and its numbers.
fn told(say: &Say) -> (&'static str, u64, u64) {
    match say {
        Say::Misfit => ("misfit", 0, 0),
        Say::Orphan { number, have } => ("orphan", *number, *have),
        Say::Applied { fresh } => ("applied", u64::from(*fresh), 0),
        _ => ("", 0, 0),
    }
}

// Whether a centre answers an ask so, in both copies.
fn answers(
    alloc: Global,
    centre: &mut Centre,
    ask: &Ask,
    want: (&str, u64, u64),
) -> Result<bool, NoMemory> {
    let says = centre.step(alloc, ask)?;
    let (one, other) = (told(&says.0), told(&says.1));
    Ok(one == want && other == want)
}

// Whether an answer stamps the first record of centre 2.
fn is_stamp(say: &Say) -> bool {
    match say {
        Say::Stamped { stamp } => stamp.centre == 2 && stamp.seq == 1,
        _ => false,
    }
}

// Whether a centre stamps the first commit of client 1 as its first record.
fn stamps(alloc: Global, centre: &mut Centre) -> Result<bool, Fail> {
    let tx = SharedTx::new(alloc, tx_of(alloc, 1)?)?;
    let ask = Ask::Commit { tx };
    let says = centre.step(alloc, &ask)?;
    Ok(is_stamp(&says.0))
}

// The delivery of a record of centre 1 with four hops: its number, and that of its transaction.
fn delivery(alloc: Global, seq: u32, number: u64) -> Result<Ask, Fail> {
    let item = record(alloc, seq, number)?;
    Ok(Ask::Deliver { item, hops: 4 })
}

// Whether a centre answers such a delivery so.
fn applies(
    alloc: Global,
    centre: &mut Centre,
    seq: u32,
    number: u64,
    want: (&str, u64, u64),
) -> Result<bool, Fail> {
    let ask = delivery(alloc, seq, number)?;
    Ok(answers(alloc, centre, &ask, want)?)
}

// Delivers to centre 2 an orphan, two records that do not fit, and one that does.
fn deliver(rt: &impl Abort, alloc: Global, centre: &mut Centre) -> Result<(), Fail> {
    let misfit = ("misfit", 0, 0);
    assert!(rt; applies(alloc, centre, 1, 2, ("orphan", 2, 0))?);
    assert!(rt; applies(alloc, centre, 0, 1, misfit)?);
    assert!(rt; applies(alloc, centre, 1_000_001, 1, misfit)?);
    assert!(rt; applies(alloc, centre, 1, 1, ("applied", 1, 0))?);
    assert!(rt; centre.has(&Stamp { centre: 1, seq: 1 }));
    Ok(())
}

// What no run shows: a delivery that is an orphan, and some that do not fit.
#[test]
fn a_delivery_is_an_orphan_or_does_not_fit(rt: HostRuntime) -> Result<(), Fail> {
    let mut centre = Centre::new(rt.alloc(), 2, 2, 1, 10)?;
    deliver(&rt, rt.alloc(), &mut centre)
}

// Whether records have these numbers, each with these hops.
fn are(list: &[Sent], want: &[(u32, u8)]) -> bool {
    list.len() == want.len()
        && list.iter().zip(want).all(|(sent, want)| sent.item.as_record().stamp.seq == want.0
            && sent.hops == want.1)
}

// Whether an answer hands these records on.
fn is_handed(say: &Say, want: &[(u32, u8)]) -> bool {
    match say {
        Say::Records { list } => are(list.as_slice(), want),
        _ => false,
    }
}

// Whether a centre hands on these records of an origin: their numbers, each with its hops.
fn hands(
    alloc: Global,
    centre: &mut Centre,
    origin: u8,
    want: &[(u32, u8)],
) -> Result<bool, NoMemory> {
    let (after, most) = (0, 64);
    let relay = Ask::Relay {
        origin,
        after,
        most,
    };
    let says = centre.step(alloc, &relay)?;
    Ok(is_handed(&says.0, want))
}

// Has centre 2 apply two records of centre 1, of which the second is one more stamp of a commit that it stamped itself,
// and hand all of its records on.
fn take_and_hand(rt: &impl Abort, alloc: Global, centre: &mut Centre) -> Result<(), Fail> {
    assert!(rt; stamps(alloc, centre)?);
    assert!(rt; applies(alloc, centre, 1, 2, ("applied", 1, 0))?);
    assert!(rt; applies(alloc, centre, 2, 1, ("applied", 0, 0))?);
    assert!(rt; hands(alloc, centre, 1, &[(1, 5), (2, 5)])?);
    assert!(rt; hands(alloc, centre, 2, &[(1, 0)])?);
    Ok(())
}

#[test]
fn a_relay_has_the_records_of_an_origin_with_their_hops(rt: HostRuntime) -> Result<(), Fail> {
    let mut centre = Centre::new(rt.alloc(), 2, 2, 1, 10)?;
    take_and_hand(&rt, rt.alloc(), &mut centre)
}
