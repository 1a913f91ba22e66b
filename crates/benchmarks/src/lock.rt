// A gate that threads call under its lock. `host THREADS CALLS` has each of 1 to 64 threads call it so often,
// and `kept 1 CALLS` has it answer as often on one thread, without a lock; the number is that of all calls.
ghost use Rattle.std.specs.Prelude.{◌≤◌, All};
ghost use Rattle.host_lock.specs.Hosts.{IsOf};

use crate::fault::Fault;
use host_lock::{Host, Pass};
use machine_trail::Kept;
use samples::Gate;
use std::alloc::Global;
use std::sync::Wait;
use std::thread;
use std::thread::Threads;

// How many guests are let in.
const GUESTS: u64 = 1_000_000;

/// How many calls were made, for the form and the counts; nothing where they are of no form.
pub fn worked<R: Threads + Wait + Sync>(
    rt: &R,
    alloc: Global,
    form: &str,
    threads: &str,
    calls: &str,
) -> Option<Result<i128, Fault>> {
    let (Ok(threads), Ok(calls)) = (threads.parse::<u32>(), calls.parse::<u32>()) else {
        return None;
    };
    if threads < 1 || threads > 64 {
        return None;
    }
    match form {
        "host" => Some(under_a_lock(rt, alloc, threads, calls)),
        "kept" => Some(alone(alloc, calls)),
        _ => None,
    }
}

// So many threads call as often each.
fn under_a_lock<R: Threads + Wait + Sync>(
    rt: &R,
    alloc: Global,
    threads: u32,
    calls: u32,
) -> Result<i128, Fault>
    requires { (1 ≤ threads) × (threads ≤ 64) }
{
    let (host, passes) = Host::new(alloc, Kept::new(alloc, Gate::new(GUESTS)), threads)?;
    in_threads(rt, &host, passes, calls)
}

// Each pass calls so often, in a thread of its own.
fn in_threads<R: Threads + Wait + Sync>(
    rt: &R,
    host: &Host<Gate>,
    passes: Vec<Pass<Gate>>,
    calls: u32,
) -> Result<i128, Fault>
    requires { All (IsOf host.now) passes.items }
{
    let each = |pass: Pass<Gate>| -> u32
        requires { IsOf host.now pass }
    { called(rt, host, pass, calls) };
    let made = match thread::map_vec(rt, passes, &each) {
        Ok(made) => made,
        Err(_) => return Err(Fault::NoMemory),
    };
    let mut all: i128 = 0;
    'made: for one in made {
        all = all.wrapping_add(i128::from(one));
    }
    Ok(all)
}

// How many of so many calls with a pass were made.
fn called<R: Wait>(rt: &R, host: &Host<Gate>, mut pass: Pass<Gate>, calls: u32) -> u32
    requires { IsOf host.now pass }
{
    let mut made: u32 = 0;
    'calls: for guest in 0..calls {
        if host.call(rt, &mut pass, &guest).is_ok() {
            made = made.wrapping_add(1);
        }
    }
    made
}

// A gate answers so often on one thread.
fn alone(alloc: Global, calls: u32) -> Result<i128, Fault> {
    let mut kept = Kept::new(alloc, Gate::new(GUESTS));
    'calls: for guest in 0..calls {
        let _let_in = kept.answer(1, &guest)?;
    }
    Ok(i128::from(calls))
}
