// The nodes of a book's graph, as they can be computed.
ghost use Rattle.std.specs.Prelude.{◌≡◌, ◌+◌, ◌-◌, ◌++◌, ℕ, length, map, OnOk, IfOk};
ghost use Rattle.dc_talk.specs.Clients.{Client};
ghost use Rattle.dc_talk.specs.Rule.{commit_in, commits_of};
ghost use Rattle.run_book.specs.Setups.{Setup};
ghost use Rattle.run_book.specs.Parts.{log_of, notes_of, IsClient};
ghost use Rattle.run_book.specs.Fit.{FitsWith};
ghost use Rattle.run_book.specs.Graphs.{node_of, graph, open_node};
ghost use Rattle.run_book.specs.Replay.{Shows, IsInRange};
ghost use Rattle.run_book.specs.BareNodes.{bare_node, is_commit};

use crate::book::Book;
use crate::edits::Edits;
use crate::replay::Replay;
use dc_talk::{Call, Deed, Ended, Log};
use ids_core::{Dot, NoMemory};
use std::alloc::Global;
use tx_graph::DotSet;

/// A committed transaction with the dots of all that it may have seen: its snapshot, and what its client
/// had committed before. Of its operations it has what the client asked for, and not the identifiers
/// that they are over.
#[derive(Drop)]
pub struct BareNode {
    pub dot: Dot,
    pub deps: DotSet,
    pub rank: u64,
    pub edits: Edits,
}

impl Book {
    /// The graph of the transactions that the clients committed, client by client, each in the order of
    /// its log. Of a book that does not fit nothing is said.
    pub fn nodes(&self, alloc: Global) -> Result<Vec<BareNode>, NoMemory>
        ensures { IfOk result (λ nodes. (setup : Setup) → FitsWith self.now setup → nodes.items ≡ map bare_node (graph self.now setup)) }
    {
        let mut nodes = Vec::new(alloc);
        // Behind the clients' logs there are those of four workers for each centre.
        let end = self
            .logs
            .as_slice()
            .len()
            .saturating_sub(4 * usize::from(self.n));
        for client in 1..end {
            self.push_client(alloc, client, &mut nodes)?;
        }
        Ok(nodes)
    }

    // Puts the nodes of a client at the end.
    fn push_client(
        &self,
        alloc: Global,
        client: usize,
        nodes: &mut Vec<BareNode>,
    ) -> Result<(), NoMemory>
        ensures { OnOk result ((setup : Setup) → FitsWith self.now setup → IsClient setup (client + 1) →
            nodes.new.items ≡ nodes.old.items ++ map bare_node (map (node_of self.now) (commits_of self.now.n client setup.capacity (notes_of self.now (client + 1))))) }
    {
        match self.logs.as_slice().get(client) {
            None => Ok(()),
            Some(log) => self.push_log(alloc, log, nodes),
        }
    }

    // Puts the nodes of a client's log at the end.
    fn push_log(&self, alloc: Global, log: &Log, nodes: &mut Vec<BareNode>) -> Result<(), NoMemory>
        ensures { OnOk result ((a : ℕ) (setup : Setup) → FitsWith self.now setup → IsClient setup a → log.now ≡ log_of self.now a →
            nodes.new.items ≡ nodes.old.items ++ map bare_node (map (node_of self.now) (commits_of self.now.n (a - 1) setup.capacity (notes_of self.now a)))) }
    {
        let mut replay = self.first_replay(log);
        let notes = log.as_slice();
        for note in notes {
            self.push_commit(alloc, &replay, &note.deed, nodes)?;
            replay.go_on(alloc, &note.deed)?;
        }
        Ok(())
    }

    // Puts the node of a deed of the client at the end, where it is a commit that got a number.
    fn push_commit(
        &self,
        alloc: Global,
        replay: &Replay,
        deed: &Deed,
        nodes: &mut Vec<BareNode>,
    ) -> Result<(), NoMemory>
        ensures { OnOk result ((setup : Setup) (s : Client) → FitsWith self.now setup → Shows replay.now s → IsInRange s → length s.vector ≡ self.now.n →
            nodes.new.items ≡ nodes.old.items ++ map bare_node (map (node_of self.now) (commit_in s deed.now))) }
    {
        if is_commit(deed) {
            nodes.push(self.next_node(alloc, replay)?)?;
        }
        Ok(())
    }

    /// The node of the open transaction, behind all that the client stands on.
    pub(crate) fn next_node(&self, alloc: Global, replay: &Replay) -> Result<BareNode, NoMemory>
        ensures { IfOk result (λ node. (setup : Setup) (s : Client) → FitsWith self.now setup → Shows replay.now s → IsInRange s → length s.vector ≡ self.now.n →
            node ≡ bare_node (open_node self.now s)) }
    {
        Ok(BareNode {
            dot: Dot {
                client: replay.client,
                number: replay.own.saturating_add(1),
            },
            deps: DotSet::from_vec(self.basis_of(alloc, replay)?),
            rank: replay.clock.saturating_add(1),
            edits: replay.edits(alloc)?,
        })
    }
}

// Whether a deed is a commit that got a number.
fn is_commit(deed: &Deed) -> bool
    ensures { result ≡ is_commit deed.now }
{
    match deed {
        Deed::Did { call, outcome } => {
            matches!(call, Call::Commit) && matches!(outcome.ended(), Ended::Number(_))
        }
        _ => false,
    }
}
