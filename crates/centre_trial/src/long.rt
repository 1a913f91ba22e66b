// A centre with its journal in two files that makes many commits, and is opened again.
use crate::disks::{file_disk, new_disk};
use crate::fault::Fault;
use dc_talk::{Ask, SharedTx};
use file_disk::FileDisk;
use ids_core::{Dot, MOST_CLIENTS};
use pair_centre::PairCentre;
use samples::{counter, inc_tx};
use std::alloc::Global;
use std::fs;
use std::fs::Files;
use vv_core::Vector;

// The paths of the two files of a centre.
#[derive(Clone, Copy)]
pub struct Paths<'a> {
    pub first: &'a str,
    pub second: &'a str,
}

// How many transactions the centre stamps at most.
const LIMIT: u64 = 1_000_000;

// How many commits are made at once. A prune follows them.
const GROUP: u32 = 63;

// The commit with this number, from 0: each of all clients makes one after another, and each adds to one of so many
// counters, in turn.
fn commit_of(alloc: Global, number: u32, objects: u32) -> Result<Ask, Fault> {
    let which = number.checked_rem(objects).unwrap_or(0);
    let object = counter(format!(in alloc; "counter_{which}")?.as_str())?;
    let dot = Dot {
        client: number % MOST_CLIENTS + 1,
        number: u64::from(number / MOST_CLIENTS) + 1,
    };
    let tx = inc_tx(alloc, dot, dot.number, Vector::zero(1), &object, &[1])?;
    Ok(Ask::Commit {
        tx: SharedTx::new(alloc, tx)?,
    })
}

// Has a centre make the commits from one number up to another, and then prune.
fn ask_group(
    alloc: Global,
    pair: &mut PairCentre<FileDisk>,
    from: u32,
    to: u32,
    objects: u32,
) -> Result<(), Fault> {
    let mut asks = Vec::new(alloc);
    for number in from..to {
        asks.push(commit_of(alloc, number, objects)?)?;
    }
    asks.push(Ask::Prune)?;
    let says = pair.ask_all(&asks)?;
    if says.len() < asks.len() {
        return Err(Fault::NoMemory);
    }
    Ok(())
}

// Has a centre make so many commits, with checkpoints where they are due, and prints how long the live file is, how long it
// was with its checkpoint alone, and how many checkpoints were made.
fn commit_all<R: Print + AllocGlobal>(
    rt: &R,
    pair: &mut PairCentre<FileDisk>,
    commits: u32,
    objects: u32,
) -> Result<(), Fault> {
    let mut checkpoints = 0u32;
    for group in 0..commits.div_ceil(GROUP) {
        let from = group.saturating_mul(GROUP);
        ask_group(
            rt.alloc(),
            pair,
            from,
            commits.min(from.saturating_add(GROUP)),
            objects,
        )?;
        if pair.is_due() {
            pair.compact()?;
            checkpoints = checkpoints.saturating_add(1);
        }
    }
    let (size, alone) = (pair.size(), pair.checkpoint_size());
    println!(rt; "{size} {alone} {checkpoints}")?;
    Ok(())
}

// Makes so many commits to so many counters in two new files.
pub fn make<R: Files<File = fs::File> + Print + AllocGlobal>(
    rt: &R,
    paths: Paths<'_>,
    commits: u32,
    objects: u32,
) -> Result<(), Fault> {
    let (first, second) = (new_disk(rt, paths.first)?, new_disk(rt, paths.second)?);
    match PairCentre::create(rt.alloc(), 1, 1, 1, LIMIT, first, second) {
        Ok(pair) => {
            let mut pair = pair;
            commit_all(rt, &mut pair, commits, objects)
        }
        Err(unopened) => Err(unopened.why.into()),
    }
}

// Prints how many records there are, how long the live file is, and how long it was with its checkpoint alone.
fn tell<R: Print>(rt: &R, pair: &PairCentre<FileDisk>) -> Result<(), Fault> {
    let vector = pair.vector();
    let records = if vector.width() == 0 {
        0
    } else {
        vector.get(1)
    };
    let (size, alone) = (pair.size(), pair.checkpoint_size());
    println!(rt; "{records} {size} {alone}")?;
    Ok(())
}

// Opens the files again, and tells what they hold.
pub fn again<R: Files<File = fs::File> + Print + AllocGlobal>(
    rt: &R,
    paths: Paths<'_>,
) -> Result<(), Fault> {
    let (first, second) = (file_disk(rt, paths.first)?, file_disk(rt, paths.second)?);
    match PairCentre::open(rt.alloc(), 1, 1, 1, LIMIT, first, second) {
        Ok(pair) => tell(rt, &pair),
        Err(unopened) => Err(unopened.why.into()),
    }
}
