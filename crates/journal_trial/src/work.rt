// What the words of the program ask for.
use crate::fault::Fault;
use crate::line::Line;
use file_disk::FileDisk;
use journal_file::{Item, Journal};
use std::alloc::Global;
use std::fs::{Files, OpenOptions};
use std::os::unix::fs::FileExt;
use std::{fs, io};

// How many groups of lines, how many lines a group, and how long a line.
#[derive(Clone, Copy)]
pub struct Load {
    groups: u32,
    size: u16,
    length: u8,
}

impl Load {
    // Nothing where one of the words is no such number.
    pub fn new(groups: &str, size: &str, length: &str) -> Option<Load> {
        Some(Load {
            groups: groups.parse().ok()?,
            size: size.parse().ok()?,
            length: length.parse().ok()?,
        })
    }
}

// Makes an empty journal.
pub fn make<R: Files<File = fs::File> + AllocGlobal>(rt: &R, path: &str) -> Result<(), Fault> {
    let disk = FileDisk::create(rt, rt.alloc(), path).map_err(Fault::of_opening)?;
    match Journal::create(rt.alloc(), disk) {
        Ok(_) => Ok(()),
        Err(unopened) => Err(unopened.why.into()),
    }
}

// The journal of a file, and its lines.
fn opened<R: Files<File = fs::File> + AllocGlobal>(
    rt: &R,
    path: &str,
) -> Result<(Journal<FileDisk>, Vec<Line>), Fault> {
    let disk = FileDisk::open(rt, rt.alloc(), path).map_err(Fault::of_opening)?;
    match Journal::open::<Line>(rt.alloc(), disk) {
        Ok(opened) => Ok(opened),
        Err(unopened) => Err(unopened.why.into()),
    }
}

// Prints how many lines there are.
pub fn open<R: Files<File = fs::File> + Print + AllocGlobal>(
    rt: &R,
    path: &str,
) -> Result<(), Fault> {
    let (_, lines) = opened(rt, path)?;
    let mut number = 0u64;
    for line in &lines {
        if !line.tells(number) {
            return Err(Fault::NoJournal);
        }
        number = number.wrapping_add(1);
    }
    println!(rt; "{number}")?;
    Ok(())
}

// Lines of consecutive numbers.
fn group(alloc: Global, first: u64, load: Load) -> Result<Vec<Line>, Fault> {
    let mut lines = Vec::new(alloc);
    for at in 0..load.size {
        lines.push(Line::new(alloc, first.wrapping_add(at as u64), load.length)?)?;
    }
    Ok(lines)
}

// Appends groups of lines, and prints behind each how many lines there are.
pub fn append<R: Files<File = fs::File> + Print + AllocGlobal>(
    rt: &R,
    path: &str,
    load: Load,
) -> Result<(), Fault> {
    let (mut journal, lines) = opened(rt, path)?;
    let mut count = lines.len() as u64;
    for _ in 0..load.groups {
        journal.append(&group(rt.alloc(), count, load)?)?;
        count = count.wrapping_add(load.size as u64);
        println!(rt; "{count}")?;
    }
    Ok(())
}

// The bytes of a group of lines.
fn bytes_of(alloc: Global, first: u64, load: Load) -> Result<Vec<u8>, Fault> {
    let mut bytes = Vec::new(alloc);
    for line in &group(alloc, first, load)? {
        bytes.push(1)?;
        line.spell(&mut bytes)?;
    }
    Ok(bytes)
}

// Writes the bytes of as many groups to a new file, each with two writes and two syncs.
pub fn bare<R: Files<File = fs::File> + Print + AllocGlobal>(
    rt: &R,
    path: &str,
    load: Load,
) -> Result<(), Fault> {
    let file = OpenOptions::new()
        .write(true)
        .create_new(true)
        .open(rt, path)
        .map_err(Fault::of_opening)?;
    let (mut end, mut count) = (0u64, 0u64);
    for _ in 0..load.groups {
        let bytes = bytes_of(rt.alloc(), count, load)?;
        write_both(&file, end, &bytes)?;
        end = end.wrapping_add(bytes.len() as u64);
        count = count.wrapping_add(load.size as u64);
        println!(rt; "{count}")?;
    }
    Ok(())
}

// A write and a sync behind a place, and then at the place.
fn write_both(file: &fs::File, end: u64, bytes: &[u8]) -> io::Result<()> {
    file.write_all_at(bytes, end.wrapping_add(1))?;
    file.sync_all()?;
    file.write_all_at(&[1], end)?;
    file.sync_all()
}
