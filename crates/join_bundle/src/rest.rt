// The transactions of a bundle that are not folded.
ghost use Rattle.std.specs.Prelude.{◌≡◌, ◌==◌, ℕ, nat_le, nat_lt, cond, max, unwrap_or, length, is_none, IfOk, OnOk};
ghost use Rattle.std.specs.BTreeMap.{get};
ghost use Rattle.std.specs.List.{list_all};
ghost use Rattle.std.specs.Ordering.{nat_cmp};
ghost use Rattle.tx_core.specs.Checks.{fault_of};
ghost use Rattle.join_bundle.specs.Conditions.{noted};
ghost use Rattle.join_bundle.specs.Tests.{are_apart};

use crate::part::ClientPart;
use ids_core::{Dot, NoMemory};
use std::alloc::Global;
use std::collections::{BTreeMap, BTreeSet};
use tx_core::{RestPart, Tx};

/// Clients with a number each.
type Numbers = BTreeMap<u32, u64>;

// Whether each transaction is fit for so many centres.
pub(crate) fn are_fit(rest: &[RestPart], n: u8) -> bool
    ensures { result ≡ list_all (λ r. is_none (fault_of n r.tx)) rest.now }
{
    rest.iter().all(|part| is_fit(&part.tx, n))
}

// Whether a transaction is fit for so many centres.
fn is_fit(tx: &Tx, n: u8) -> bool
    ensures { result ≡ is_none (fault_of n tx.now) }
{
    match tx.check(n) {
        Ok(()) => true,
        Err(_) => false,
    }
}

// Whether each transaction has a stamp.
pub(crate) fn have_stamps(rest: &[RestPart]) -> bool
    ensures { result ≡ list_all (λ r. nat_lt 0 (length r.stamps)) rest.now }
{
    rest.iter().all(|part| 0 < part.stamps.len())
}

// Whether each transaction's number is at most the greatest that is noted of its client.
pub(crate) fn are_noted(
    alloc: Global,
    clients: &[ClientPart],
    rest: &[RestPart],
) -> Result<bool, NoMemory>
    ensures { IfOk result (λ met. met ≡ list_all (λ r. nat_le r.tx.dot.number (noted clients.now r.tx.dot.client)) rest.now) }
{
    let numbers = numbers_of(alloc, clients)?;
    Ok(rest.iter().all(|part| part.tx.dot.number <= number_at(&numbers, part.tx.dot.client)))
}

// The greatest number that is noted of each client.
fn numbers_of(alloc: Global, clients: &[ClientPart]) -> Result<Numbers, NoMemory>
    ensures { IfOk result (λ numbers. (client : ℕ) → unwrap_or (get nat_cmp numbers client) 0 ≡ noted clients.now client) }
{
    let mut numbers = BTreeMap::new(alloc);
    for part in clients {
        raise(&mut numbers, part)?;
    }
    Ok(numbers)
}

// Raises the number of a part's client to the part's own, where that is greater.
fn raise(numbers: &mut Numbers, part: &ClientPart) -> Result<(), NoMemory>
    ensures { OnOk result ((client : ℕ) → unwrap_or (get nat_cmp numbers.new client) 0 ≡ max (cond (part.now.client == client) part.now.number 0) (unwrap_or (get nat_cmp numbers.old client) 0)) }
{
    let before = number_at(numbers, part.client);
    numbers.insert(part.client, part.number.max(before))?;
    Ok(())
}

// The number of a client, 0 where there is none.
fn number_at(numbers: &Numbers, client: u32) -> u64
    ensures { result ≡ unwrap_or (get nat_cmp numbers.now client) 0 }
{
    match numbers.get(&client) {
        Some(number) => *number,
        None => 0,
    }
}

/// Whether no two transactions have one dot. Time: linear in them, with a logarithm.
pub fn are_apart(alloc: Global, rest: &[RestPart]) -> Result<bool, NoMemory>
    ensures { IfOk result (λ apart. apart ≡ are_apart rest.now) }
{
    let mut dots: BTreeSet<Dot> = BTreeSet::new(alloc);
    for part in rest {
        if !dots.insert(part.tx.dot)? {
            return Ok(false);
        }
    }
    Ok(true)
}
