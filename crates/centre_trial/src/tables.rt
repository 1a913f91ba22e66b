// Asks that are cut short at each of their calls of the disk, and files with bad gates.
use crate::asking::{ask_these, commit, created, opened, with_journal};
use crate::fault::Fault;
use dc_journal::JournalCentre;
use dc_talk::Ask;
use journal_disk::{Disk, MemoryDisk, SteadyDisk};
use journal_file::{JournalFault, OpenFault};
use std::alloc::Global;
use std::ops::Range;
use vv_core::Vector;

// One commit behind another, and then three at once.
pub fn stops<R: Print + AllocGlobal>(rt: &R) -> Result<(), Fault> {
    let alloc = rt.alloc();
    let disk = with_journal(alloc, MemoryDisk::new(alloc, Vec::new(alloc)))?;
    let disk = with_commits(alloc, disk, 1..2)?;
    let disk = stop_these(rt, "ask", disk, 2..3)?;
    stop_these(rt, "ask_all", disk, 3..6)?;
    Ok(())
}

// Makes these commits at once, and stops them after each of their calls of the disk. An opening makes three.
fn stop_these<R: Print + AllocGlobal>(
    rt: &R,
    name: &str,
    disk: MemoryDisk,
    commits: Range<u64>,
) -> Result<MemoryDisk, Fault> {
    let begun = disk.moments().saturating_add(3);
    let disk = with_commits(rt.alloc(), disk, commits)?;
    match stop_each(rt, name, &disk, begun) {
        Ok(()) => Ok(disk),
        Err(fault) => Err(fault),
    }
}

// The disk of a centre that has made these commits at once.
fn with_commits(alloc: Global, disk: MemoryDisk, commits: Range<u64>) -> Result<MemoryDisk, Fault> {
    match opened(alloc, disk) {
        Ok(centre) => after_commits(alloc, centre, commits),
        Err(fault) => Err(fault),
    }
}

// The disk of this centre when it has made them.
fn after_commits(
    alloc: Global,
    centre: JournalCentre<MemoryDisk>,
    commits: Range<u64>,
) -> Result<MemoryDisk, Fault> {
    let mut centre = centre;
    let done = make(alloc, &mut centre, commits);
    let disk = centre.part();
    match done {
        Ok(()) => Ok(disk),
        Err(fault) => Err(fault),
    }
}

// Makes commits at once, each of which is answered.
fn make(
    alloc: Global,
    centre: &mut JournalCentre<MemoryDisk>,
    commits: Range<u64>,
) -> Result<(), Fault> {
    let mut asks = Vec::new(alloc);
    for number in commits {
        asks.push(commit(alloc, 1, number, Vector::zero(2))?)?;
    }
    ask_these(alloc, centre, &asks)?;
    Ok(())
}

// Stops after each of the last calls of a disk, of which there were so many before.
fn stop_each<R: Print + AllocGlobal>(
    rt: &R,
    name: &str,
    disk: &MemoryDisk,
    before: usize,
) -> Result<(), Fault> {
    for moment in before..disk.moments().saturating_add(1) {
        let own = found(rt.alloc(), disk, moment)?;
        let call = moment.saturating_sub(before);
        println!(rt; "{name} {call} {own}")?;
    }
    Ok(())
}

// How many commits there are after a crash at a moment of a disk, where each write since the last sync left ones.
fn found(alloc: Global, disk: &MemoryDisk, moment: usize) -> Result<u32, Fault> {
    if moment > disk.moments() {
        return Err(Fault::Differs);
    }
    let left = disk.after_crash(moment, &[false, false, false], 1)?;
    match opened(alloc, left) {
        Ok(centre) => Ok(own(&centre)),
        Err(fault) => Err(fault),
    }
}

// How many commits of its own a centre has.
fn own<D: Disk>(centre: &JournalCentre<D>) -> u32 {
    match centre.vector().as_slice() {
        [own, ..] => *own,
        [] => 0,
    }
}

// Lets each call of an ask fail, those of `create` before it not.
pub fn faults<R: Print + AllocGlobal>(rt: &R) -> Result<(), Fault> {
    for call in 6..10u64 {
        let fault = fault_at(rt.alloc(), call)?;
        let (first, shut, second) = (fault.first, fault.shut, fault.second);
        println!(rt; "{call} {first} {shut} {second}")?;
    }
    Ok(())
}

// What an ask is answered whose call of the disk fails, whether the centre is shut, and what the next ask is answered.
#[derive(Clone, Copy)]
struct Failed {
    first: &'static str,
    shut: bool,
    second: &'static str,
}

// That of a centre whose disk fails at a call.
fn fault_at(alloc: Global, call: u64) -> Result<Failed, Fault> {
    let mut fails = Vec::new(alloc);
    fails.push(call)?;
    match created(alloc, MemoryDisk::new(alloc, fails)) {
        Ok(centre) => {
            let mut centre = centre;
            Ok(asked_twice(&mut centre))
        }
        Err(fault) => Err(fault),
    }
}

// That of a centre that is asked twice.
fn asked_twice(centre: &mut JournalCentre<MemoryDisk>) -> Failed {
    let first = word_of(centre, &Ask::Prune);
    let shut = centre.is_shut();
    let second = word_of(centre, &Ask::Report);
    Failed {
        first,
        shut,
        second,
    }
}

// The word for what an ask is answered.
fn word_of(centre: &mut JournalCentre<MemoryDisk>, ask: &Ask) -> &'static str {
    match centre.ask(ask) {
        Ok(_) => "none",
        Err(JournalFault::Disk) => "disk",
        Err(JournalFault::NoMemory) => "memory",
        Err(JournalFault::Shut) => "shut",
    }
}

// No gate at all, none behind the second entry, an entry of no kind, one that is answered otherwise, and gates and bytes of
// any kind.
pub fn gates<R: Print + AllocGlobal>(rt: &R) -> Result<(), Fault> {
    let files: [&[u8]; 5] = [
        &[],
        &[1, 4, 1, 5],
        &[1, 5, 1, 3, 1, 9, 0],
        &[1, 4, 1, 3, 0],
        &[1, 4, 7, 5, 0, 9],
    ];
    for file in files {
        match bad_place(rt.alloc(), file)? {
            Some(place) => println!(rt; "bad {place}")?,
            None => println!(rt; "good")?,
        }
    }
    Ok(())
}

// The place of the bad gate that is told of a file with these bytes.
fn bad_place(alloc: Global, bytes: &[u8]) -> Result<Option<u64>, Fault> {
    let disk = SteadyDisk::with_bytes(bytes.to_vec(alloc)?);
    match JournalCentre::open(alloc, 1, 2, 2, 9, disk) {
        Ok(_) => Ok(None),
        Err(unopened) => place_in(unopened.why),
    }
}

// The place that an error tells.
fn place_in(why: OpenFault) -> Result<Option<u64>, Fault> {
    match why {
        OpenFault::Bad(place) => Ok(Some(place)),
        OpenFault::Disk => Err(Fault::Disk),
        OpenFault::NoMemory => Err(Fault::NoMemory),
    }
}
