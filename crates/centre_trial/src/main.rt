//! Opens the journals of centres again where a call was cut short or a crash came, for tests. What it does is told by the
//! first word:
//!
//!     stops                 cuts an ask short after each of its calls of the disk, and again one of three asks at once:
//!                           prints the call, and how many commits are found
//!     faults                lets each call of an ask fail: prints the call, what the ask is answered, whether the centre is
//!                           shut, and what the next ask is answered
//!     gates                 opens five files: prints the place of the first bad gate, or that there is none
//!     long FIRST SECOND COMMITS OBJECTS
//!                           makes so many commits of a centre with its journal in two new files, to so many counters,
//!                           with a prune behind each 63 of them, and with checkpoints: prints how long the live file is,
//!                           how long it was with its checkpoint alone, and how many checkpoints were made
//!     again FIRST SECOND    opens these files: prints how many commits there are, and the same two lengths
//!     trial FILE SEED TENS  asks so many times ten random asks of a centre without a journal, of one over a disk in memory
//!                           and of one over a new file; each tenth is cut short, and both journals are opened again on
//!                           what is left. Prints how many were asked, were kept, were lost, and how many bytes there are
//!
//! The status is 2 where the words are of no form, 3 where two answers differ or a centre finds other commits than it
//! should, 4 where the file cannot be made or opened, 5 where a call of a disk failed, and 6 where there is no memory.
#![tactic(auto)]

mod asking;
mod cut;
mod dice;
mod disks;
mod fault;
mod long;
mod says;
mod tables;
mod trial;

use fault::Fault;
use std::fs::Files;
use std::process::ExitCode;
use std::{env, fs, io};

// The two paths that words name.
fn paths<'a>(first: &'a String, second: &'a String) -> long::Paths<'a> {
    long::Paths {
        first: first.as_str(),
        second: second.as_str(),
    }
}

// What is done by these words; nothing where they are of no form.
fn worked<R: Files<File = fs::File> + Print + AllocGlobal>(
    rt: &R,
    words: &[String],
) -> Option<Result<(), Fault>> {
    match words {
        [form] => match form.as_str() {
            "stops" => Some(tables::stops(rt)),
            "faults" => Some(tables::faults(rt)),
            "gates" => Some(tables::gates(rt)),
            _ => None,
        },
        [form, first, second] => match form.as_str() {
            "again" => Some(long::again(rt, paths(first, second))),
            _ => None,
        },
        [form, first, second, commits, objects] => match form.as_str() {
            "long" => {
                let commits = commits.as_str().parse().ok()?;
                let objects = objects.as_str().parse().ok()?;
                Some(long::make(rt, paths(first, second), commits, objects))
            }
            _ => None,
        },
        [form, file, seed, tens] => match form.as_str() {
            "trial" => {
                let seed = seed.as_str().parse().ok()?;
                let tens = tens.as_str().parse().ok()?;
                Some(trial::ask_tens(rt, file.as_str(), seed, tens))
            }
            _ => None,
        },
        _ => None,
    }
}

fn main(rt: HostRuntime) -> io::Result<ExitCode> {
    let mut words = Vec::new(rt.alloc());
    for word in env::args(&rt)?.skip(1) {
        words.push(word)?;
    }
    match worked(&rt, &words) {
        Some(Ok(())) => Ok(ExitCode::from(0)),
        Some(Err(fault)) => Ok(ExitCode::from(fault.status())),
        None => Ok(ExitCode::from(2)),
    }
}
