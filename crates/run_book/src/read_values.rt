// The values of objects over sets of transactions, and at reads.
ghost use Rattle.std.specs.Prelude.{◌≡◌, ◌+◌, ◌↔◌, ℕ, None, slice_get, IfOk, IfSome, IsNone};
ghost use Rattle.run_book.specs.Setups.{Setup};
ghost use Rattle.run_book.specs.Parts.{IsClient};
ghost use Rattle.run_book.specs.Fit.{FitsWith};
ghost use Rattle.tx_graph.specs.Values.{IsValueOver};
ghost use Rattle.run_book.specs.Graphs.{graph, client_at, open_node};
ghost use Rattle.run_book.specs.Causal.{ValueRead, Reads, IsValueAt};
ghost use Rattle.run_book.specs.BareNodes.{bare_node};
ghost use Rattle.run_book.specs.ReadValues.{read_in, read_of, object_read};

use crate::bare_nodes::BareNode;
use crate::book::Book;
use crate::object_acts::{acts_over, push_acts};
use dc_talk::{Call, Deed, Ended, Log};
use ids_core::{Dot, NoMemory, ObjectId};
use std::alloc::Global;
use tx_core::Value;
use tx_graph::value_by_sees;

impl Book {
    /// The value of an object over a set of transactions, each counted once, by which update sees which
    /// (Shapiro and others, INRIA RR-7506). Of a book that does not fit nothing is said.
    pub fn value_over(
        &self,
        alloc: Global,
        object: &ObjectId,
        dots: &[Dot],
    ) -> Result<Value, NoMemory>
        ensures { IfOk result (λ value. (setup : Setup) → FitsWith self.now setup → IsValueOver (graph self.now setup) dots.now object.now value) }
    {
        let nodes = self.nodes(alloc)?;
        let acts = acts_over(alloc, &nodes, dots, object)?;
        value_by_sees(alloc, object.sort, &acts)
    }

    /// What the read at a note of a log has to give: the value of its object over the basis of the read
    /// and the updates that were open. Logs and notes are counted from 0. It is none exactly where the
    /// note is no read that got a value. In a book that fits it is the value that was read.
    pub fn value_read(
        &self,
        alloc: Global,
        log: usize,
        note: usize,
    ) -> Result<Option<Value>, NoMemory>
        ensures none { IfOk result (λ found. IsNone found ↔ (object_read self.now (log + 1) note ≡ None)) }
        ensures value { IfOk result (λ found. IfSome found (λ value. (setup : Setup) (read : ValueRead) → FitsWith self.now setup → Reads self.now setup read → read.actor ≡ log + 1 → read.place ≡ note →
            IsValueAt self.now setup (record read { value = value }))) }
        ensures same { IfOk result (λ found. IfSome found (λ value. (setup : Setup) (read : ValueRead) → FitsWith self.now setup → Reads self.now setup read → read.actor ≡ log + 1 → read.place ≡ note →
            value ≡ read.value)) }
    {
        match self.logs.as_slice().get(log) {
            None => Ok(None),
            Some(log) => match object_read(log, note) {
                None => Ok(None),
                Some(object) => {
                    let replay = self.replay(alloc, log, note)?;
                    let last = self.next_node(alloc, &replay)?;
                    let value = self.value_before(alloc, &object, &last)?;
                    Ok(Some(value))
                }
            },
        }
    }

    // The value of an object over all that an open transaction may have seen, and its own updates.
    fn value_before(
        &self,
        alloc: Global,
        object: &ObjectId,
        last: &BareNode,
    ) -> Result<Value, NoMemory>
        ensures { IfOk result (λ value. (setup : Setup) (a m : ℕ) → FitsWith self.now setup → IsClient setup a → last.now ≡ bare_node (open_node self.now (client_at self.now setup a m)) →
            IsValueAt self.now setup (record { actor = a; place = m; object = object.now; value = value })) }
    {
        let nodes = self.nodes(alloc)?;
        let mut acts = acts_over(alloc, &nodes, last.deps.as_slice(), object)?;
        push_acts(last, object, &mut acts)?;
        value_by_sees(alloc, object.sort, &acts)
    }
}

// The object that a note of a log read, where it got a value.
fn object_read(log: &Log, note: usize) -> Option<ObjectId>
    ensures { result ≡ read_of (slice_get log.now.notes note) }
{
    match log.as_slice().get(note) {
        None => None,
        Some(note) => object_of(&note.deed),
    }
}

// The object that a deed read, where it got a value.
fn object_of(deed: &Deed) -> Option<ObjectId>
    ensures { result ≡ read_in deed.now }
{
    match deed {
        Deed::Did { call, outcome } => match call {
            Call::Read { object } => match outcome.ended() {
                Ended::Got(_) => Some(*object),
                _ => None,
            },
            _ => None,
        },
        _ => None,
    }
}
