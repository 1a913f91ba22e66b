// Random asks of centre 1 of two.
ghost use Rattle.std.specs.Prelude.{◌<◌};

use crate::asking::{commit, tx_of};
use crate::fault::Fault;
use dc_talk::{Ask, Say, SharedRecord};
use ids_core::Dot;
use rand_core::Rng;
use rand_pcg::Pcg32;
use samples::{counter, pair};
use std::alloc::Global;
use tx_core::Record;
use vv_core::{Stamp, Vector};

// A generator, how many records centre 1 has of each centre, and how many transactions of the clients 1 and 2.
#[derive(Drop)]
pub struct Dice {
    rng: Pcg32,
    own: u32,
    far: u32,
    first: u32,
    second: u32,
}

impl Dice {
    pub fn new(seed: u64) -> Dice {
        Dice {
            rng: Pcg32::new(seed, 54),
            own: 0,
            far: 0,
            first: 0,
            second: 0,
        }
    }

    // A number below a limit.
    pub fn below(&mut self, limit: u32) -> u32
        requires { 0 < limit }
        ensures { result < limit }
    {
        self.rng.next_u32() % limit
    }

    // Takes note of an answer.
    pub fn note(&mut self, ask: &Ask, say: &Say) {
        match say {
            Say::Stamped { stamp: _ } => {
                self.own = self.own.saturating_add(1);
                self.first = self.first.saturating_add(1);
            }
            Say::Applied { fresh } => {
                self.far = self.far.saturating_add(1);
                if *fresh {
                    self.note_fresh(ask);
                }
            }
            _ => {}
        }
    }

    // Takes note of a new transaction of a delivery.
    fn note_fresh(&mut self, ask: &Ask) {
        if let Ask::Deliver { item, hops: _ } = ask {
            match item.as_record().tx.dot.client {
                1 => self.first = self.first.saturating_add(1),
                _ => self.second = self.second.saturating_add(1),
            }
        }
    }

    // A vector about what centre 1 has: now and then with more than that.
    fn vector(&mut self) -> Vector {
        let (own, far) = (self.own, self.far);
        match self.below(8) {
            0 => pair(own.saturating_add(1), far),
            1 => pair(own, far.saturating_add(1)),
            2 => pair(0, 0),
            3 => pair(own / 2, far / 2),
            _ => pair(own, far),
        }
    }

    // A number that comes next mostly: else the one before or behind it.
    fn about(&mut self, number: u32) -> u32 {
        match self.below(8) {
            0 => number.max(1),
            1 => number.saturating_add(2),
            _ => number.saturating_add(1),
        }
    }

    // The dot of a transaction of a client that is mostly the next.
    fn dot(&mut self, client: u32) -> Dot {
        let have = if client == 1 { self.first } else { self.second };
        let number = u64::from(self.about(have));
        Dot { client, number }
    }

    // A record of centre 2, mostly the next, now and then with a transaction that centre 1 has stamped.
    fn delivery(&mut self, alloc: Global) -> Result<Ask, Fault> {
        let stamp = Stamp {
            centre: 2,
            seq: self.about(self.far),
        };
        let client = 1 + self.below(2);
        let dot = self.dot(client);
        let deps = self.vector();
        let hops = self.below(8) as u8;
        let tx = tx_of(alloc, dot, pair(0, 0), 3)?;
        Ok(Ask::Deliver {
            item: SharedRecord::new(alloc, Record { stamp, deps, tx })?,
            hops,
        })
    }

    // So many asks.
    pub fn asks(&mut self, alloc: Global, count: u32) -> Result<Vec<Ask>, Fault> {
        let mut asks = Vec::new(alloc);
        for _ in 0..count {
            asks.push(self.ask(alloc)?)?;
        }
        Ok(asks)
    }

    // One ask: of each kind, those that change a centre more often.
    pub fn ask(&mut self, alloc: Global) -> Result<Ask, Fault> {
        match self.below(20) {
            0..=5 => {
                let number = u64::from(self.about(self.first));
                let snap = self.vector();
                commit(alloc, 1, number, snap)
            }
            6..=9 => self.delivery(alloc),
            10 | 11 => Ok(Ask::Learn {
                from: 1 + self.below(3) as u8,
                vector: self.vector(),
            }),
            12 | 13 => Ok(Ask::Prune),
            14 => Ok(self.switch()),
            _ => self.question(),
        }
    }

    // A stop, or mostly a start.
    fn switch(&mut self) -> Ask {
        match self.below(4) {
            0 => Ask::Stop,
            _ => Ask::Start,
        }
    }

    // An ask that changes nothing.
    fn question(&mut self) -> Result<Ask, Fault> {
        let at = self.vector();
        let after = u64::from(self.below(9));
        let from = Vector::zero(2);
        Ok(match self.below(7) {
            0 => Ask::Fetch {
                object: counter("a")?,
                at,
            },
            1 => Ask::Refresh { client: 1, at },
            2 => Ask::Hello {
                client: 2,
                need: at,
            },
            3 => Ask::Send { after, most: 9 },
            4 => Ask::Delta {
                object: counter("a")?,
                from,
                at,
            },
            5 => Ask::Relay {
                origin: 1 + self.below(2) as u8,
                after,
                most: 9,
            },
            _ => Ask::Report,
        })
    }
}
