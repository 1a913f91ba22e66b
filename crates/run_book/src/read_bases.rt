// What the reads of a client stand on whose values its log tells, one read after another.
ghost use Rattle.std.specs.Prelude.{◌≡◌, ◌≤◌, ◌+◌, [], ◌++◌, ℕ, flat_map, length, take, OnOk, IfOk};
ghost use Rattle.vv_core.specs.Vectors.{at, centres};
ghost use Rattle.dc_talk.specs.Clients.{Client};
ghost use Rattle.run_book.specs.Setups.{Setup};
ghost use Rattle.run_book.specs.Parts.{log_of, IsClient};
ghost use Rattle.run_book.specs.Fit.{FitsWith};
ghost use Rattle.run_book.specs.Replay.{Shows};
ghost use Rattle.run_book.specs.Basis.{stamped_dots};
ghost use Rattle.run_book.specs.ReadBases.{bases_of, basis_by, basis_told, in_order, stamped_at, stamped_lists, tells_value};

use crate::basis::{sort_once, stamped_dot};
use crate::book::Book;
use crate::replay::Replay;
use dc_talk::{Deed, Entry, Line, Log};
use ids_core::{Dot, NoMemory};
use list_core::List;
use std::alloc::Global;
use vv_core::Vector;

/// Dots in a list.
pub type Dots = List<Dot>;

impl Book {
    /// The dots of the commits that each centre stamped, in the order of the stamps, those of centre 1 first. It
    /// takes time in the number of entries.
    pub fn stamped(&self, alloc: Global) -> Result<Vec<Dots>, NoMemory>
        ensures { IfOk result (λ lists. lists.items ≡ stamped_lists self.now) }
    {
        let mut lists = Vec::new(alloc);
        for before in 0..self.n {
            lists.push(stamped_in(alloc, self.trail(before + 1))?)?;
        }
        Ok(lists)
    }

    /// What each read of a log stands on (Middleware 2015) whose value the log tells, in the order of the reads, by what
    /// each centre stamped: the transactions that the snapshot covers, and those that the client committed before, each
    /// once, by client and number. Logs are counted from 0. Of a book that does not fit, or a log that is no client's,
    /// nothing is said. It takes time in the number of notes and, but for a sort, of the dots.
    pub fn bases(&self, alloc: Global, stamped: &[Dots], log: usize) -> Result<Vec<Dots>, NoMemory>
        ensures { IfOk result (λ bases. (setup : Setup) → FitsWith self.now setup → IsClient setup (log + 1) → stamped.now ≡ stamped_lists self.now →
            bases.items ≡ bases_of self.now setup (log + 1)) }
    {
        match self.logs.as_slice().get(log) {
            None => Ok(Vec::new(alloc)),
            Some(log) => self.log_bases(alloc, stamped, log),
        }
    }

    // What each read of a client's log stands on whose value the log tells.
    fn log_bases(&self, alloc: Global, stamped: &[Dots], log: &Log) -> Result<Vec<Dots>, NoMemory>
        ensures { IfOk result (λ bases. (a : ℕ) (setup : Setup) → FitsWith self.now setup → IsClient setup a → log.now ≡ log_of self.now a → stamped.now ≡ stamped_lists self.now →
            bases.items ≡ bases_of self.now setup a) }
    {
        let mut bases = Vec::new(alloc);
        let mut replay = self.first_replay(log);
        let notes = log.as_slice();
        for note in notes {
            self.push_basis(alloc, stamped, &replay, &note.deed, &mut bases)?;
            replay.go_on(alloc, &note.deed)?;
        }
        Ok(bases)
    }

    // Puts what the client stands on at the end, where the deed tells a value that was read.
    fn push_basis(
        &self,
        alloc: Global,
        stamped: &[Dots],
        replay: &Replay,
        deed: &Deed,
        bases: &mut Vec<Dots>,
    ) -> Result<(), NoMemory>
        ensures { OnOk result ((setup : Setup) (s : Client) → FitsWith self.now setup → Shows replay.now s → length s.vector ≡ self.now.n → stamped.now ≡ stamped_lists self.now →
            bases.new.items ≡ bases.old.items ++ basis_told self.now s deed.now) }
    {
        if tells_value(deed) {
            bases.push(ordered_basis(alloc, stamped, replay)?)?;
        }
        Ok(())
    }
}

// Whether a deed tells a value that was read.
fn tells_value(deed: &Deed) -> bool
    ensures { result ≡ tells_value deed.now }
{
    matches!(deed, Deed::Told(Line::ReadValue { .. }))
}

// The dots of the commits that the centre of a trail stamped.
fn stamped_in(alloc: Global, trail: &[Entry]) -> Result<Dots, NoMemory>
    ensures { IfOk result (λ dots. dots ≡ stamped_dots trail.now) }
{
    let mut dots = Dots::new(alloc);
    for entry in trail {
        match stamped_dot(entry) {
            Some(dot) => dots.push(dot)?,
            None => {}
        }
    }
    Ok(dots)
}

// What the client of a replay stands on, by client and number.
fn ordered_basis(alloc: Global, stamped: &[Dots], replay: &Replay) -> Result<Dots, NoMemory>
    ensures { IfOk result (λ dots. dots ≡ in_order (basis_by stamped.now replay.now)) }
{
    let mut dots = covered(alloc, stamped, &replay.vector)?;
    for before in 0..replay.own {
        dots.push(Dot {
            client: replay.client,
            number: before + 1,
        })?;
    }
    sort_once(&mut dots);
    Ok(Dots::from_vec(dots))
}

// The dots that a vector covers, centre by centre.
fn covered(alloc: Global, stamped: &[Dots], vector: &Vector) -> Result<Vec<Dot>, NoMemory>
    ensures { IfOk result (λ dots. dots.items ≡ flat_map (λ e. take (at vector.now e) (stamped_at stamped.now e)) (centres (length vector.now))) }
{
    let mut dots = Vec::new(alloc);
    for centre in 1..vector.width() + 1 {
        push_first(stamped, centre, vector.get(centre), &mut dots)?;
    }
    Ok(dots)
}

// Puts the dots that a centre stamped first at the end, at most so many.
fn push_first(stamped: &[Dots], centre: u8, most: u64, dots: &mut Vec<Dot>) -> Result<(), NoMemory>
    requires { 1 ≤ centre }
    ensures { OnOk result (dots.new.items ≡ dots.old.items ++ take most (stamped_at stamped.now centre)) }
{
    if let Some(list) = stamped.get(usize::from(centre - 1)) {
        let first = list.as_slice();
        dots.extend_from_slice(&first[..first.len().min(most as usize)])?;
    }
    Ok(())
}
