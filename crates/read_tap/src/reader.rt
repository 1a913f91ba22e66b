// The end of a tap that looks.
ghost use Rattle.std.specs.Prelude.{◌≡◌, ◌≤◌, ◌<◌, length, nat_le, IsTrue, IfOk, OnOk};
ghost use Rattle.read_tap.specs.Shows.{IsFront, IsLast, width};

use crate::count::LastPlace;
use crate::shows::Shows;
use ids_core::NoMemory;
use left_right::ReadHandle;
use std::alloc::Global;
use std::marker::Model;
use tx_core::Value;
use vv_core::Vector;

/// A reader of a tap, for one thread. It takes no lock, and never waits. It is seen as the shows that it has seen.
#[derive(Drop)]
pub struct TapReader {
    port: ReadHandle<LastPlace>,
    seen: Shows,
}

impl Model for TapReader {
    ghost use Rattle.read_tap.specs.Shows.{ShowsView};
    ghost use Rattle.tx_core.specs.States.{state_codes};

    ghost Value = { ShowsView };

    ghost coded = { Prim.hlevel state_codes };

    ghost view = { λ r. r.seen };
}

// The place of the last show that is published, or of the first one where the feeder is gone.
fn published(port: &mut ReadHandle<LastPlace>) -> usize {
    match port.enter() {
        Some(last) => last.0,
        None => 0,
    }
}

impl TapReader {
    // A reader that has seen these shows.
    pub(crate) fn new(port: ReadHandle<LastPlace>, seen: Shows) -> TapReader
        ensures { result ≡ seen }
    {
        TapReader { port, seen }
    }

    /// The vector of the last show that was seen, with the value of an object, by its place among those of the tap. The
    /// shows that are published by then are seen first. It never waits. An `Err` is want of memory: some of them may
    /// be seen.
    pub fn look(&mut self, alloc: Global, object: usize) -> Result<(Vector, Value), NoMemory>
        requires { object < width self.old.table }
        ensures table { self.new.table ≡ self.old.table }
        ensures front { IsFront self.old.shows self.new.shows }
        ensures last { IfOk result (λ answer. IsLast self.new.shows object answer.0 answer.1) }
    {
        let last = published(&mut self.port);
        self.seen.grow(last)?;
        self.seen.last(alloc, object)
    }

    /// Sees the shows of the tap's feeder. Each later look answers the last of them, or one behind it. It never waits. An
    /// `Err` is want of memory: some of them may be seen.
    pub fn learn(&mut self, shows: &Shows) -> Result<(), NoMemory>
        requires { shows.now.table ≡ self.old.table }
        ensures table { self.new.table ≡ self.old.table }
        ensures front { IsFront self.old.shows self.new.shows }
        ensures all { OnOk result (IsFront shows.now.shows self.new.shows) }
    {
        self.seen.catch_up(shows)
    }

    // Whether what was seen is a front of these shows of the tap: it is unless it is more.
    pub(crate) fn is_front_of(&self, shows: &Shows) -> bool
        requires { shows.now.table ≡ self.now.table }
        ensures front { IsTrue result → IsFront self.now.shows shows.now.shows }
        ensures longer { result ≡ nat_le (length self.now.shows) (length shows.now.shows) }
    {
        self.seen.is_front_of(shows)
    }
}
