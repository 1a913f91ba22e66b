// The greatest numbers that transactions raise.
ghost use Rattle.std.specs.Prelude.{◌≡◌, ◌==◌, ℕ, cond, max, IfOk, OnOk};
ghost use Rattle.check_point.specs.Operations.{greatest};
ghost use Rattle.check_point.specs.Points.{number_in, number_over};

use ids_core::{Dot, NoMemory};
use indexmap::IndexMap;
use std::alloc::Global;
use tx_core::Tx;

/// Clients with the greatest number of their transactions each.
pub(crate) type NumberTable = IndexMap<u32, u64>;

// The number that is kept of a client, 0 where none is.
pub(crate) fn number_at(kept: &NumberTable, client: u32) -> u64
    ensures { result ≡ number_in kept.now.entries client }
{
    match kept.get(&client) {
        Some(number) => *number,
        None => 0,
    }
}

// The greatest numbers of the clients that have one of the transactions, with those that are kept.
pub(crate) fn raised_numbers(
    kept: &NumberTable,
    alloc: Global,
    txs: &[Tx],
) -> Result<NumberTable, NoMemory>
    ensures { IfOk result (λ raised. (client : ℕ) → number_over raised.entries kept.now.entries client ≡ max (greatest client txs.now) (number_in kept.now.entries client)) }
{
    let mut raised = IndexMap::new(alloc);
    for tx in txs {
        raise(&mut raised, kept, &tx.dot)?;
    }
    Ok(raised)
}

// Raises the number of a transaction's client to the transaction's own, where that is greater.
fn raise(raised: &mut NumberTable, kept: &NumberTable, dot: &Dot) -> Result<(), NoMemory>
    ensures { OnOk result ((client : ℕ) → number_over raised.new.entries kept.now.entries client ≡ max (cond (dot.now.client == client) dot.now.number 0) (number_over raised.old.entries kept.now.entries client)) }
{
    let before = number_before(raised, kept, dot.client);
    raised.insert(dot.client, dot.number.max(before))?;
    Ok(())
}

// The number of a client among the raised ones, or else among those that are kept.
fn number_before(raised: &NumberTable, kept: &NumberTable, client: u32) -> u64
    ensures { result ≡ number_over raised.now.entries kept.now.entries client }
{
    match raised.get(&client) {
        Some(number) => *number,
        None => number_at(kept, client),
    }
}
