// Records as centres hand them on, and doors with prepared answers.
use dc_talk::{ListDoor, Records, Say, Sent, SharedRecord};
use ids_core::{Dot, NoMemory};
use samples::{counter, inc_tx, pair};
use std::alloc::Global;
use std::test::Fail;
use tx_core::{Record, Tx};
use vv_core::Stamp;

/// The transaction of client 1 that adds 5 to a counter, under its number as its rank too.
pub fn tx_of(alloc: Global, number: u64) -> Result<Tx, Fail> {
    let object = counter("a")?;
    let dot = Dot { client: 1, number };
    Ok(inc_tx(alloc, dot, number, pair(0, 0), &object, &[5])?)
}

/// The record of centre 1 with this number, by such a transaction.
pub fn record(alloc: Global, seq: u32, number: u64) -> Result<SharedRecord, Fail> {
    let tx = tx_of(alloc, number)?;
    let (stamp, deps) = (Stamp { centre: 1, seq }, pair(0, 0));
    Ok(SharedRecord::new(alloc, Record { stamp, deps, tx })?)
}

/// The record of centre 1 with this number and with so many hops, by the transaction with its number.
pub fn sent_one(alloc: Global, seq: u32, hops: u8) -> Result<Sent, Fail> {
    let item = record(alloc, seq, u64::from(seq))?;
    Ok(Sent { item, hops })
}

/// An answer with the records of centre 1 from one number to another, with so many hops.
pub fn sent(alloc: Global, first: u32, last: u32, hops: u8) -> Result<Say, Fail> {
    let mut list = Records::new(alloc);
    for seq in first..=last {
        list.push(sent_one(alloc, seq, hops)?)?;
    }
    Ok(Say::Records { list })
}

/// A door that gives two answers, and behind them those of stopped centres.
pub fn door_of(alloc: Global, first: Say, second: Say) -> Result<ListDoor, NoMemory> {
    let mut says = Vec::new(alloc);
    says.push(first)?;
    says.push(second)?;
    Ok(ListDoor::new(alloc, says))
}
