// Centres with journals, and what is asked of them.
use crate::fault::Fault;
use dc_journal::JournalCentre;
use dc_talk::{Ask, Say, SharedTx};
use ids_core::Dot;
use journal_disk::Disk;
use samples::{counter, inc_tx};
use std::alloc::Global;
use tx_core::Tx;
use vv_core::Vector;

// How many transactions a centre stamps at most.
pub const LIMIT: u64 = 4000;

// Centre 1 of two, where updates are stable once both know them, with a new journal on a disk.
pub fn created<D: Disk>(alloc: Global, disk: D) -> Result<JournalCentre<D>, Fault> {
    match JournalCentre::create(alloc, 1, 2, 2, LIMIT, disk) {
        Ok(centre) => Ok(centre),
        Err(unopened) => Err(unopened.why.into()),
    }
}

// The same with the journal that a disk has.
pub fn opened<D: Disk>(alloc: Global, disk: D) -> Result<JournalCentre<D>, Fault> {
    match JournalCentre::open(alloc, 1, 2, 2, LIMIT, disk) {
        Ok(centre) => Ok(centre),
        Err(unopened) => Err(unopened.why.into()),
    }
}

// The disk with an empty journal.
pub fn with_journal<D: Disk>(alloc: Global, disk: D) -> Result<D, Fault> {
    match created(alloc, disk) {
        Ok(centre) => Ok(centre.part()),
        Err(fault) => Err(fault),
    }
}

// The commit of a client with this number, which adds to a counter.
pub fn commit(alloc: Global, client: u32, number: u64, snap: Vector) -> Result<Ask, Fault> {
    let tx = tx_of(alloc, Dot { client, number }, snap, 5)?;
    Ok(Ask::Commit {
        tx: SharedTx::new(alloc, tx)?,
    })
}

// The transaction that adds a number to a counter.
pub fn tx_of(alloc: Global, dot: Dot, snap: Vector, delta: i64) -> Result<Tx, Fault> {
    let object = counter("a")?;
    Ok(inc_tx(alloc, dot, dot.number, snap, &object, &[delta])?)
}

// All answers to asks, which are one or many.
pub fn ask_these<D: Disk>(
    alloc: Global,
    centre: &mut JournalCentre<D>,
    asks: &[Ask],
) -> Result<Vec<Say>, Fault> {
    match asks {
        [ask] => ask_one(alloc, centre, ask),
        _ => ask_many(centre, asks),
    }
}

// The answer to an ask.
fn ask_one<D: Disk>(
    alloc: Global,
    centre: &mut JournalCentre<D>,
    ask: &Ask,
) -> Result<Vec<Say>, Fault> {
    let mut says = Vec::with_capacity(alloc, 1)?;
    says.push(centre.ask(ask)?)?;
    Ok(says)
}

// All answers to asks at once.
fn ask_many<D: Disk>(centre: &mut JournalCentre<D>, asks: &[Ask]) -> Result<Vec<Say>, Fault> {
    let says = centre.ask_all(asks)?;
    if says.len() == asks.len() {
        Ok(says)
    } else {
        Err(Fault::NoMemory)
    }
}
