//! What the benchmarks time, by the first word: `sets`, `session`, `centre`, `log`, `frames`, `lock` or `taps`. Each of these
//! modules says which words follow. A number is printed, by which a script knows that the work was done.
#![tactic(auto)]

mod centre;
mod counter;
mod fault;
mod frames;
mod lock;
mod log;
mod session;
mod sets;
mod taps;

use fault::Fault;
use std::alloc::Global;
use std::process::ExitCode;
use std::sync::Wait;
use std::thread::Threads;
use std::{env, io};

// What the work gives that the words name; nothing where they are of no form.
fn worked<R: Threads + Wait + Sync>(
    rt: &R,
    alloc: Global,
    words: &[String],
) -> Option<Result<i128, Fault>> {
    match words {
        [part, form, count] => match part.as_str() {
            "sets" => sets::worked(alloc, form.as_str(), count.as_str()),
            "centre" => centre::worked(alloc, form.as_str(), count.as_str()),
            _ => None,
        },
        [part, form, pending, rounds] => match part.as_str() {
            "session" => {
                session::worked(alloc, form.as_str(), pending.as_str(), rounds.as_str())
            }
            "lock" => { lock::worked(rt, alloc, form.as_str(), pending.as_str(), rounds.as_str()) }
            "taps" => { taps::worked(rt, alloc, form.as_str(), pending.as_str(), rounds.as_str()) }
            "log" => log::worked(alloc, form.as_str(), pending.as_str(), rounds.as_str()),
            "frames" => { frames::worked(alloc, form.as_str(), pending.as_str(), rounds.as_str()) }
            _ => None,
        },
        _ => None,
    }
}

fn main(rt: HostRuntime) -> io::Result<ExitCode> {
    let mut words = Vec::new(rt.alloc());
    for word in env::args(&rt)?.skip(1) {
        words.push(word)?;
    }
    match worked(&rt, rt.alloc(), &words) {
        Some(Ok(value)) => {
            println!(rt; "{value}")?;
            Ok(ExitCode::from(0))
        }
        Some(Err(_)) => Ok(ExitCode::from(6)),
        None => Ok(ExitCode::from(2)),
    }
}
