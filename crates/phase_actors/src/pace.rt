// The pace of the workers of a phase.
ghost use Rattle.std.specs.Prelude.{◌≡◌};

use ids_core::NoMemory;
use std::sync::Wait;
use std::sync::atomic::{AtomicU64, Ordering};

// So many rounds wait for no client: one of each worker, and those of pruners up to their first prune.
const HEAD_START: u64 = 1;

const FREE_PRUNES: u64 = 8;

// The most centres.
const CENTRES: usize = 8;

// More rounds than any worker makes. A sleep compares the low 32 bits of a count, and no count has those of this one.
const FAR: u64 = 1 << 62 | 1 << 31;

/// The kinds of workers, in their order in a round.
#[derive(Clone, Copy)]
pub(crate) enum Worker {
    Sender,
    Receiver,
    Reporter,
    Pruner,
}

// How many rounds the worker of a kind has made at each centre, in order.
#[derive(Drop)]
struct Counts {
    words: [AtomicU64; CENTRES],
}

impl Counts {
    // No round is made.
    fn new() -> Counts {
        Counts {
            words: [
                AtomicU64::new(0),
                AtomicU64::new(0),
                AtomicU64::new(0),
                AtomicU64::new(0),
                AtomicU64::new(0),
                AtomicU64::new(0),
                AtomicU64::new(0),
                AtomicU64::new(0),
            ],
        }
    }

    // The count of a centre.
    fn at(&self, centre: u8) -> Option<&AtomicU64> {
        self.words.get(usize::from(centre).wrapping_sub(1))
    }

    // One round more at a centre.
    fn add(&self, centre: u8) {
        if let Some(made) = self.at(centre) {
            made.fetch_add(1, Ordering::SeqCst);
            made.wake_all();
        }
    }

    // All rounds count as made, those to come too.
    fn fill(&self) {
        for made in &self.words {
            made.store(FAR, Ordering::SeqCst);
            made.wake_all();
        }
    }

    // Waits until so many rounds are made at a centre.
    fn wait_at<R: Wait>(&self, rt: &R, centre: u8, rounds: u64) {
        let Some(made) = self.at(centre) else {
            return;
        };
        for _ in rt.forever() {
            let seen = made.load(Ordering::SeqCst);
            if seen >= rounds {
                return;
            }
            made.park(rt, low_bits(seen));
        }
        unreachable!()
    }
}

/// Spreads the rounds of the workers over the turns of the clients, so that records are carried while clients go on: the
/// first round waits for no client, a later one for as great a part of the turns, and the last one for all of them.
///
/// In a round a receiver waits until the senders of all other centres have made it, a sender until the receivers of all
/// other centres have made the round before, and past its first round a reporter for the receiver of its own centre. So
/// what a sender puts on a link is taken before it looks again, and nothing is sent twice. Who waits sleeps until a count
/// changes; there is no clock.
///
/// These waits end only where each worker has a thread of its own and makes all its rounds: of those that wait, the one
/// that is first in the order of the rounds, and in a round of senders, receivers and reporters, waits for workers that
/// do not wait. Where a thread cannot be made or a worker ends early, `part` is called, and from then on no worker waits
/// for another one. For clients all wait still: these wait for no worker, and share no thread in which a worker goes
/// first. No contract speaks of it: a worker may make its rounds at any time.
#[derive(Drop)]
pub struct Pace {
    // The turns of all clients, counted for each, and how many of them are over.
    turns: u64,
    over: AtomicU64,
    // The rounds of each worker, and how many of them the clients let begin.
    rounds: u64,
    due: AtomicU64,
    // The centres, and the rounds that their senders and receivers have made.
    centres: u8,
    sent: Counts,
    received: Counts,
}

impl Pace {
    /// The pace of so many rounds at so many centres, beside so many turns of which none is over.
    pub fn new(turns: u64, rounds: u32, centres: u8) -> Pace {
        let rounds = u64::from(rounds);
        Pace {
            turns,
            over: AtomicU64::new(0),
            rounds,
            due: AtomicU64::new(due_after(0, turns, rounds)),
            centres,
            sent: Counts::new(),
            received: Counts::new(),
        }
    }

    /// So many turns more are over.
    pub(crate) fn advance(&self, turns: u64) {
        let before = self.over.fetch_add(turns, Ordering::SeqCst);
        let due = due_after(before.saturating_add(turns), self.turns, self.rounds);
        if due > due_after(before, self.turns, self.rounds) {
            self.due.fetch_max(due, Ordering::SeqCst);
            self.due.wake_all();
        }
    }

    /// No client goes on any more, whether or not it came to its end: nobody waits for one from now on.
    pub fn finish(&self) {
        self.due.store(self.rounds, Ordering::SeqCst);
        self.due.wake_all();
    }

    /// A worker has no thread of its own, or ended before its last round: none waits for another one from now on.
    pub fn part(&self) {
        self.sent.fill();
        self.received.fill();
    }

    /// Hands on what came of a worker. Where memory ran out, none waits for another one from now on.
    pub fn ended<T>(&self, given: Result<T, NoMemory>) -> Result<T, NoMemory>
        ensures { result ≡ given }
    {
        if given.is_err() {
            self.part();
        }
        given
    }

    /// Waits until the worker of a centre may begin its round of a number, counted from 1.
    pub(crate) fn wait_for<R: Wait>(&self, rt: &R, worker: Worker, centre: u8, round: u32) {
        let round = u64::from(round);
        let free = match worker {
            Worker::Pruner => FREE_PRUNES,
            _ => HEAD_START,
        };
        if round > free {
            self.wait_for_clients(rt, round);
        }
        self.wait_in_round(rt, worker, centre, round);
    }

    /// The worker of a centre has made a round more.
    pub(crate) fn has_made(&self, worker: Worker, centre: u8) {
        match worker {
            Worker::Sender => self.sent.add(centre),
            Worker::Receiver => self.received.add(centre),
            Worker::Reporter | Worker::Pruner => {}
        }
    }

    // Waits until those workers have come that go before in a round.
    fn wait_in_round<R: Wait>(&self, rt: &R, worker: Worker, centre: u8, round: u64) {
        let earlier = round.saturating_sub(1);
        match worker {
            Worker::Sender => self.wait_for_others(rt, &self.received, centre, earlier),
            Worker::Receiver => self.wait_for_others(rt, &self.sent, centre, round),
            Worker::Reporter if round > HEAD_START => self.received.wait_at(rt, centre, round),
            Worker::Reporter | Worker::Pruner => {}
        }
    }

    // Waits until the workers of a kind at all other centres have made so many rounds.
    fn wait_for_others<R: Wait>(&self, rt: &R, made: &Counts, centre: u8, rounds: u64) {
        for before in 0..self.centres {
            let other = before + 1;
            if other != centre {
                made.wait_at(rt, other, rounds);
            }
        }
    }

    // Waits until the clients let a round begin.
    fn wait_for_clients<R: Wait>(&self, rt: &R, round: u64) {
        for _ in rt.forever() {
            let due = self.due.load(Ordering::SeqCst);
            if round <= due {
                return;
            }
            self.due.park(rt, low_bits(due));
        }
        unreachable!()
    }
}

// What a sleep on a word compares.
fn low_bits(word: u64) -> u32 {
    (word & 0xffff_ffff) as u32
}

// How many rounds may have begun when so many of the turns are over.
fn due_after(over: u64, turns: u64, rounds: u64) -> u64 {
    if over >= turns {
        return rounds;
    }
    let spread = rounds.saturating_sub(HEAD_START);
    HEAD_START.saturating_add(spread.saturating_mul(over) / turns)
}
