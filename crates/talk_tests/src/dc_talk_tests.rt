// Asks, and the answers that belong to them.
use crate::records::record;
use dc_talk::{Ask, Say, belongs};
use std::alloc::Global;
use std::test::Fail;

// Whether a relay of the records of an origin, at most so many, fits a system of two centres.
fn is_fit_relay(origin: u8, most: u32) -> bool {
    let after = 0;
    let relay = Ask::Relay {
        origin,
        after,
        most,
    };
    relay.fits(2)
}

// Whether the delivery of a record with so many hops fits.
fn is_fit_delivery(alloc: Global, hops: u8) -> Result<bool, Fail> {
    let item = record(alloc, 1, 1)?;
    let ask = Ask::Deliver { item, hops };
    Ok(ask.fits(2))
}

#[test]
fn relays_and_deliveries_fit_or_do_not(rt: HostRuntime) -> Result<(), Fail> {
    assert!(rt; is_fit_relay(1, 1) && is_fit_relay(2, 1_024));
    assert!(rt; !is_fit_relay(0, 1) && !is_fit_relay(3, 1));
    assert!(rt; !is_fit_relay(1, 0) && !is_fit_relay(1, 1_025));
    assert!(rt; is_fit_delivery(rt.alloc(), 0)?);
    assert!(rt; is_fit_delivery(rt.alloc(), 7)?);
    assert!(rt; !is_fit_delivery(rt.alloc(), 8)?);
    Ok(())
}

// Whether an answer belongs to an ask.
fn is_of(ask: Ask, say: Say) -> bool {
    belongs(&ask, &say)
}

// A relay of one record of centre 1.
fn relay() -> Ask {
    Ask::Relay {
        origin: 1,
        after: 0,
        most: 1,
    }
}

#[test]
fn answers_belong_or_do_not(rt: HostRuntime) {
    assert!(rt; is_of(Ask::Stop, Say::Stopped));
    assert!(rt; !is_of(Ask::Start, Say::Stopped));
    assert!(rt; is_of(relay(), Say::Trimmed { from: 1 }));
    assert!(rt; !is_of(relay(), Say::Started));
}
