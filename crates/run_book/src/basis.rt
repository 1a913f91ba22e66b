// What sessions stand on.
ghost use Rattle.std.specs.Prelude.{◌≡◌, ◌≤◌, ◌+◌, ◌↔◌, [], ◌++◌, ℕ, length, take, OnOk, IfOk};
ghost use Rattle.std.specs.List.Sorted.{IsStrictlySortedBy};
ghost use Rattle.list_core.specs.Members.{In};
ghost use Rattle.ids_core.specs.declared.ids.Dot.{Dot};
ghost use Rattle.ids_core.specs.Orders.{dot_cmp};
ghost use Rattle.run_book.specs.Setups.{Setup};
ghost use Rattle.run_book.specs.Parts.{trail_of, log_of, IsClient};
ghost use Rattle.run_book.specs.Fit.{FitsWith};
ghost use Rattle.run_book.specs.Graphs.{basis_at, client_at};
ghost use Rattle.run_book.specs.Replay.{Shows};
ghost use Rattle.run_book.specs.Basis.{dot_stamped, stamped_dots, stamped_cover, basis_of};

use crate::book::Book;
use crate::replay::Replay;
use dc_talk::{Ask, Entry, Log, Note, Say};
use ids_core::{Dot, MOST_CENTRES, NoMemory};
use std::alloc::Global;
use vv_core::Vector;

impl Book {
    /// What a read at a note of a log stands on (Middleware 2015): the transactions that the snapshot
    /// covers, and those that the client committed before, each once, by client and number. Logs and
    /// notes are counted from 0; past the last note it is what the client stands on in the end. Of a log
    /// that is not there it is empty, and of a book that does not fit nothing more is said.
    pub fn basis(&self, alloc: Global, log: usize, note: usize) -> Result<Vec<Dot>, NoMemory>
        ensures absent { length self.now.logs ≤ log → IfOk result (λ dots. dots.items ≡ []) }
        ensures ascending { IfOk result (λ dots. IsStrictlySortedBy dot_cmp dots.items) }
        ensures members { IfOk result (λ dots. (setup : Setup) → FitsWith self.now setup → IsClient setup (log + 1) →
            (d : Dot) → In d dots.items ↔ In d (basis_at self.now setup (log + 1) note)) }
    {
        match self.logs.as_slice().get(log) {
            None => Ok(Vec::new(alloc)),
            Some(log) => {
                let replay = self.replay(alloc, log, note)?;
                let mut dots = self.basis_of(alloc, &replay)?;
                sort_once(&mut dots);
                Ok(dots)
            }
        }
    }

    /// The client of a log before its first note.
    pub(crate) fn first_replay(&self, log: &Log) -> Replay
        ensures { (a : ℕ) (setup : Setup) → FitsWith self.now setup → IsClient setup a → log.now ≡ log_of self.now a → Shows result (client_at self.now setup a 0) }
    {
        // A vector has 1 to 8 entries, and a book that fits as many centres.
        Replay::new(self.n.clamp(1, MOST_CENTRES), log.actor().saturating_sub(1))
    }

    /// The client of a log after its first notes, of all where there are fewer.
    pub(crate) fn replay(&self, alloc: Global, log: &Log, many: usize) -> Result<Replay, NoMemory>
        ensures { IfOk result (λ replay. (a : ℕ) (setup : Setup) → FitsWith self.now setup → IsClient setup a → log.now ≡ log_of self.now a →
            Shows replay (client_at self.now setup a many)) }
    {
        let mut replay = self.first_replay(log);
        let notes = first_notes(log, many);
        for note in notes {
            replay.go_on(alloc, &note.deed)?;
        }
        Ok(replay)
    }

    /// What the client of a replay stands on, in no order, and maybe twice.
    pub(crate) fn basis_of(&self, alloc: Global, replay: &Replay) -> Result<Vec<Dot>, NoMemory>
        ensures { IfOk result (λ dots. dots.items ≡ basis_of self.now replay.now) }
    {
        let mut dots = self.cover(alloc, &replay.vector)?;
        for before in 0..replay.own {
            dots.push(Dot {
                client: replay.client,
                number: before + 1,
            })?;
        }
        Ok(dots)
    }

    // The dots that a vector covers, centre by centre.
    fn cover(&self, alloc: Global, vector: &Vector) -> Result<Vec<Dot>, NoMemory>
        ensures { IfOk result (λ dots. dots.items ≡ stamped_cover self.now vector.now) }
    {
        let mut dots = Vec::new(alloc);
        for centre in 1..vector.width() + 1 {
            push_stamped(self.trail(centre), vector.get(centre), &mut dots)?;
        }
        Ok(dots)
    }

    /// The entries of a centre, none of one that is not there.
    pub fn trail(&self, centre: u8) -> &[Entry]
        requires { 1 ≤ centre }
        ensures { result.now ≡ trail_of self.now centre }
    {
        match self.trails.as_slice().get(usize::from(centre - 1)) {
            Some(trail) => trail.as_slice(),
            None => &[],
        }
    }
}

// The first notes of a log, all where there are fewer.
fn first_notes(log: &Log, many: usize) -> &[Note]
    ensures { result.now ≡ take many log.now.notes }
{
    let notes = log.as_slice();
    &notes[..many.min(notes.len())]
}

// Puts the dots that a centre stamped first at the end, at most so many.
fn push_stamped(trail: &[Entry], most: u64, dots: &mut Vec<Dot>) -> Result<(), NoMemory>
    ensures { OnOk result (dots.new.items ≡ dots.old.items ++ take most (stamped_dots trail.now)) }
{
    dots.extend(trail.iter().filter_map(stamped_dot).take(most as usize))?;
    Ok(())
}

// The dot of a commit that got a stamp.
pub fn stamped_dot(entry: &Entry) -> Option<Dot>
    ensures { result ≡ dot_stamped entry.now.ask entry.now.say }
{
    match &entry.ask {
        Ask::Commit { tx } => match &entry.say {
            Say::Stamped { stamp: _ } => Some(tx.as_tx().dot),
            _ => None,
        },
        _ => None,
    }
}

// Orders dots, and leaves one of those that are equal.
pub fn sort_once(dots: &mut Vec<Dot>)
    ensures ascending { IsStrictlySortedBy dot_cmp dots.new.items }
    ensures members { (d : Dot) → In d dots.new.items ↔ In d dots.old.items }
{
    dots.sort_unstable();
    dots.dedup();
}
