// What the program says to its user while a script is played: how much of it is done. It goes to standard error, of
// which no contract speaks, and only where this is a terminal.
use io_edge::{Call, Gate};
use run_progress::{Extent, Progress};
use std::io;
use std::io::IsTerminal;
use std::sync::atomic::{AtomicU64, Ordering};
use std::time::Instant;

/// A script with more lines than these is one of whose play the user hears.
const FEW_LINES: u64 = 10_000;

/// How many milliseconds there are from one line to the next, at least.
const BETWEEN_LINES: u64 = 100;

/// Tells on standard error, in one line that is written anew again and again, how many sections of a script are done.
/// As a gate it lets each caller pass at once.
#[derive(Drop)]
pub struct Teller {
    rt: HostRuntime,
    // When the program began, or nothing where it tells nothing.
    began: Option<Instant>,
    // How many milliseconds after that the next line is due, and 0 while none stands on the terminal.
    due: AtomicU64,
}

impl Teller {
    /// It tells nothing where it is to be quiet, where standard error is no terminal, or where the clock can't be read.
    pub fn new(rt: HostRuntime, quiet: bool) -> Self {
        let began = if !quiet && rt.stderr().is_terminal() {
            Instant::now(&rt).ok()
        } else {
            None
        };
        Teller {
            rt,
            began,
            due: AtomicU64::new(0),
        }
    }

    // How many milliseconds ago the program began, where it tells anything.
    fn since(&self) -> Option<u64> {
        let elapsed = self.began?.elapsed(&self.rt).ok()?;
        u64::try_from(elapsed.as_millis()).ok()
    }

    // Whether a line is due now. Then the next one isn't for a while.
    fn is_due(&self) -> bool {
        let now = match self.since() {
            Some(now) => now,
            None => return false,
        };
        let due = self.due.load(Ordering::SeqCst);
        let next = now.saturating_add(BETWEEN_LINES);
        now >= due
            && self
                .due
                .compare_exchange(due, next, Ordering::SeqCst, Ordering::SeqCst)
                .is_ok()
    }

    /// Takes the line that stands on the terminal away, where one does.
    pub fn clear(&self) {
        if self.due.swap(0, Ordering::SeqCst) > 0 {
            said(eprint!(self.rt; "\r{:48}\r", ""));
        }
    }
}

// A line that standard error didn't take is a line that nobody misses.
fn said(written: io::Result<()>) {
    match written {
        Ok(()) => {}
        Err(_) => {}
    }
}

impl Gate for Teller {
    type Ticket = Call;

    type Receipt = Call;

    fn before(&self, actor: u32, step: u64) -> Call {
        Call { actor, step }
    }

    fn after(&self, ticket: Call) -> Call {
        ticket
    }
}

impl Progress for Teller {
    fn played(&self, sections: u64, of: Extent) {
        if sections == of.sections {
            self.clear();
        } else if of.lines > FEW_LINES && self.is_due() {
            said(eprint!(self.rt; "\rswift_sim: {sections} of {} sections done", of.sections));
        }
    }
}
