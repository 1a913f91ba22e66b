// The duplicate filter of a centre.
ghost use Rattle.std.specs.Prelude.{◌≡◌, ◌≢◌, ◌≤◌, ◌==◌, ◌+◌, ◌↔◌, ℕ, List, cond, IsTrue, IsNone, IfOk, length, Some, None};
ghost use Rattle.dup_guard.specs.declared.noted.Noted.{Noted as NotedOf};
ghost use Rattle.dup_guard.specs.Notes.{last_at, number_of, stamp_of};
ghost use Rattle.dup_guard.specs.Parts.{note_of, noted_from, AreParts, ArePartsOf};

use crate::noted::Noted;
use ids_core::{Dot, MOST_CLIENTS, NoMemory};
use std::alloc::Global;
use std::marker::Model;
use vv_core::Stamp;

// What was last noted of a client: the number, 0 for none, and the stamp that was first noted with it.
#[derive(Clone, Copy)]
struct Last {
    number: u64,
    stamp: Stamp,
}

/// A filter of duplicates, seen as the list of what was last noted of each client. A client's
/// transactions are noted in the order of their numbers, each once; so one that comes again is told by its
/// number, and found by the stamp that it was first noted with. (Zawirski and others, Middleware 2015.)
#[derive(Drop)]
pub struct Guard {
    lasts: Vec<Last>,
}

impl Model for Guard {
    ghost use Rattle.std.specs.Prelude.{◌≡◌, List, length};
    ghost use Rattle.ids_core.specs.declared.limits.TheConstants.{MOST_CLIENTS};
    ghost use Rattle.dup_guard.specs.declared.guard.Last.{Last};

    ghost Value = { List Last };

    ghost view = { λ g. g.lasts.items };

    ghost invariant = { λ g. length g.lasts.items ≡ MOST_CLIENTS };
}

impl Guard {
    /// A guard with nothing noted. It makes the places of all clients, so that no later call takes memory.
    pub fn new(alloc: Global) -> Result<Guard, NoMemory>
        ensures numbers { IfOk result (λ guard. (client : ℕ) → number_of guard client ≡ 0) }
        ensures stamps { IfOk result (λ guard. (client : ℕ) → stamp_of guard client ≡ None) }
    {
        let nothing = Last {
            number: 0,
            stamp: Stamp { centre: 0, seq: 0 },
        };
        let lasts = vec![in alloc; nothing; MOST_CLIENTS as usize]?;
        Ok(Guard { lasts })
    }

    /// The number last noted of a client; 0 where none was.
    pub fn through(&self, client: u32) -> u64
        ensures { result ≡ number_of self.now client }
    {
        match last_of(&self.lasts, client) {
            Some(last) => last.number,
            None => 0,
        }
    }

    /// The stamp first noted with the number last noted of a client; none exactly where none was.
    pub fn first_stamp(&self, client: u32) -> Option<Stamp>
        ensures stamp { result ≡ stamp_of self.now client }
        ensures none { IsNone result ↔ (number_of self.now client ≡ 0) }
    {
        match last_of(&self.lasts, client) {
            Some(last) => {
                if last.number == 0 {
                    None
                } else {
                    Some(last.stamp)
                }
            }
            None => None,
        }
    }

    /// Whether a dot's number is at most the one last noted of its client.
    pub fn seen(&self, dot: &Dot) -> bool
        ensures { IsTrue result ↔ (dot.now.number ≤ number_of self.now dot.now.client) }
    {
        dot.number <= self.through(dot.client)
    }

    /// Notes the next number of a client with its stamp.
    pub fn note(&mut self, dot: &Dot, stamp: &Stamp)
        requires client { (1 ≤ dot.now.client) × (dot.now.client ≤ MOST_CLIENTS) }
        requires next { dot.now.number ≡ number_of self.old dot.now.client + 1 }
        ensures number { number_of self.new dot.now.client ≡ dot.now.number }
        ensures stamp { stamp_of self.new dot.now.client ≡ Some stamp.now }
        ensures others { (client : ℕ) → client ≢ dot.now.client → (number_of self.new client ≡ number_of self.old client) × (stamp_of self.new client ≡ stamp_of self.old client) }
    {
        self.lasts[(dot.client - 1) as usize] = Last {
            number: dot.number,
            stamp: *stamp,
        };
    }

    /// What is noted of each client that has a number, ascending by client. No other list is that. Time:
    /// linear in `MOST_CLIENTS`.
    pub fn parts(&self, alloc: Global) -> Result<Vec<Noted>, NoMemory>
        ensures parts { IfOk result (λ parts. AreParts parts.items) }
        ensures noted { IfOk result (λ parts. ArePartsOf self.now parts.items) }
        ensures only { IfOk result (λ parts. (others : List NotedOf) → AreParts others → ArePartsOf self.now others → others ≡ parts.items) }
    {
        parts_of(alloc, &self.lasts)
    }

    /// The guard of which these are the parts. Time: linear in `MOST_CLIENTS`.
    pub fn of_parts(alloc: Global, parts: &[Noted]) -> Result<Guard, NoMemory>
        requires { AreParts parts.now }
        ensures { IfOk result (λ guard. ArePartsOf guard parts.now) }
    {
        let mut guard = Guard::new(alloc)?;
        for part in parts {
            guard.put(part);
        }
        Ok(guard)
    }

    // Notes a part.
    fn put(&mut self, part: &Noted)
        requires client { (1 ≤ part.now.client) × (part.now.client ≤ MOST_CLIENTS) }
        requires number { 1 ≤ part.now.number }
        ensures { (client : ℕ) → note_of self.new client ≡ cond (part.now.client == client) (Some part.now) (note_of self.old client) }
    {
        self.lasts[(part.client - 1) as usize] = Last {
            number: part.number,
            stamp: part.stamp,
        };
    }
}

// What is noted of each client that has a number.
fn parts_of(alloc: Global, lasts: &[Last]) -> Result<Vec<Noted>, NoMemory>
    requires { length lasts.now ≡ MOST_CLIENTS }
    ensures { IfOk result (λ parts. parts.items ≡ noted_from 1 lasts.now) }
{
    let mut parts = Vec::new(alloc);
    for (place, last) in lasts.iter().enumerate() {
        if last.number != 0 {
            parts.push(Noted {
                client: place as u32 + 1,
                number: last.number,
                stamp: last.stamp,
            })?;
        }
    }
    Ok(parts)
}

// What was last noted of a client, where it has a place.
fn last_of(lasts: &[Last], client: u32) -> Option<Last>
    ensures { result ≡ last_at lasts.now client }
{
    if client == 0 {
        return None;
    }
    lasts.get((client - 1) as usize).copied()
}
