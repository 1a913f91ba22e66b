//! Puts lines into a journal over a file of the operating system, for tests that kill it and for times. What it does is
//! told by the first word:
//!
//!     make FILE                          makes an empty journal
//!     append FILE GROUPS SIZE LENGTH     opens it and appends groups of so many lines; behind each it prints how many
//!                                        lines there are
//!     bare FILE GROUPS SIZE LENGTH       writes the same bytes to a new file, with two syncs a group and no journal
//!     open FILE                          opens it and prints how many lines there are
//!
//! Lines are numbered. The status is 2 where the words are of no form, 3 where the file is no journal or its lines are
//! not those numbers in order, 4 where the file cannot be opened, 5 where a call of the disk failed, 6 where there is no
//! memory, and 7 where another program has the file.
#![tactic(auto)]

mod fault;
mod line;
mod work;

use fault::Fault;
use std::fs::Files;
use std::process::ExitCode;
use std::{env, fs, io};

// What is done by these words; nothing where they are of no form.
fn worked<R: Files<File = fs::File> + Print + AllocGlobal>(
    rt: &R,
    words: &[String],
) -> Option<Result<(), Fault>> {
    match words {
        [form, file] => match form.as_str() {
            "make" => Some(work::make(rt, file.as_str())),
            "open" => Some(work::open(rt, file.as_str())),
            _ => None,
        },
        [form, file, groups, size, length] => {
            let load = work::Load::new(groups.as_str(), size.as_str(), length.as_str())?;
            match form.as_str() {
                "append" => Some(work::append(rt, file.as_str(), load)),
                "bare" => Some(work::bare(rt, file.as_str(), load)),
                _ => None,
            }
        }
        _ => None,
    }
}

fn main(rt: HostRuntime) -> io::Result<ExitCode> {
    let mut words = Vec::new(rt.alloc());
    for word in env::args(&rt)?.skip(1) {
        words.push(word)?;
    }
    match worked(&rt, &words) {
        Some(Ok(())) => Ok(ExitCode::from(0)),
        Some(Err(fault)) => Ok(ExitCode::from(fault.status())),
        None => Ok(ExitCode::from(2)),
    }
}
