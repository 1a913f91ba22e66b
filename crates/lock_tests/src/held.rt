// A gate that waits in each of its answers, until a test lets it go on.
use ids_core::NoMemory;
use machine_trail::Machine;
use samples::Gate;
use std::alloc::Global;
use std::sync::atomic::{AtomicU64, Ordering};
use std::sync::{Arc, Wait};
use std::time::Duration;

// So often a wait looks, with so many milliseconds between: ten seconds in all.
const LOOKS: u32 = 10000;

const MILLIS_BETWEEN: u64 = 1;

/// A gate that says when it has begun to answer (1), and then waits until it may go on, ten seconds at most. It says
/// whether it might (2).
#[derive(Drop)]
pub struct Held<R: Wait + Send + Drop> {
    pub rt: R,
    pub begun: Arc<AtomicU64, Global>,
    pub may: Arc<AtomicU64, Global>,
    pub gate: Gate,
}

impl<R: Wait + Send + Drop> Machine for Held<R> {
    type Ask = u32;

    type Say = bool;

    type Settings = u64;

    ghost use Rattle.lock_tests.specs.Gates.{gate_reply, gate_stands};

    ghost settings = { λ held. held.gate.most };

    ghost reply = { gate_reply };

    ghost stands = { λ held log. gate_stands held.gate log };

    fn step(&mut self, guest: &u32) -> Result<(bool, bool), NoMemory> {
        self.begun.store(1, Ordering::SeqCst);
        if comes(&self.rt, &self.may) {
            self.begun.store(2, Ordering::SeqCst);
        }
        self.gate.step(guest)
    }

    fn copy_ask(guest: &u32) -> Result<u32, NoMemory> {
        Gate::copy_ask(guest)
    }
}

/// Waits until the flag is not 0, ten seconds at most, and says whether it is.
pub fn comes<R: Wait>(rt: &R, flag: &Arc<AtomicU64, Global>) -> bool {
    for _ in 0..LOOKS {
        if flag.load(Ordering::SeqCst) != 0 {
            return true;
        }
        flag.park_timeout(rt, 0, Duration::from_millis(MILLIS_BETWEEN));
    }
    false
}
