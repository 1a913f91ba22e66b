// Of two files the one with the later generation goes on.
ghost use Rattle.std.specs.Prelude.{◌≡◌, ◌<◌, ◌⊎◌, [], MatchOption, IfOk, IfErr};
ghost use Rattle.journal_pair.specs.Marks.{number_of};
ghost use Rattle.journal_pair.specs.Entries.{generation};
ghost use Rattle.journal_pair.specs.Choices.{IsMixed, IsChosen, HasFault};

use crate::generations::{Taken, take_apart};
use crate::{Entry, PairFault, Side};
use std::alloc::Global;

/// Which of two files has the later generation, and that.
pub fn choose<T: Drop>(
    alloc: Global,
    first: Vec<Entry<T>>,
    second: Vec<Entry<T>>,
) -> Result<(Side, Taken<T>), PairFault>
    ensures chosen { IfOk result (λ r. IsChosen r.0 r.1.mark r.1.checkpoint.items r.1.behind.items first.items second.items) }
    ensures fault { IfErr result (λ e. HasFault e first.items second.items) }
{
    let xs = take_side(alloc, Side::First, first)?;
    let ys = take_side(alloc, Side::Second, second)?;
    match (xs, ys) {
        (None, None) => Err(PairFault::Empty),
        (Some(x), None) => Ok((Side::First, x)),
        (None, Some(y)) => Ok((Side::Second, y)),
        (Some(x), Some(y)) => later(x, y),
    }
}

// The generation of the entries of a file, if it has some.
fn take_side<T: Drop>(
    alloc: Global,
    side: Side,
    entries: Vec<Entry<T>>,
) -> Result<Option<Taken<T>>, PairFault>
    ensures taken { IfOk result (λ found. MatchOption found (entries.items ≡ []) (λ g. entries.items ≡ generation g.mark g.checkpoint.items g.behind.items)) }
    ensures fault { IfErr result (λ e. (e ≡ PairFault.NoMemory) ⊎ ((e ≡ PairFault.Mixed side) × (IsMixed entries.items))) }
{
    if entries.is_empty() {
        return Ok(None);
    }
    match take_apart(alloc, entries)? {
        Some(taken) => Ok(Some(taken)),
        None => Err(PairFault::Mixed(side)),
    }
}

// The later of two generations.
fn later<T: Drop>(x: Taken<T>, y: Taken<T>) -> Result<(Side, Taken<T>), PairFault>
    ensures first { IfOk result (λ r. r.0 ≡ Side.First → (r.1 ≡ x) × (number_of y.mark < number_of x.mark)) }
    ensures second { IfOk result (λ r. r.0 ≡ Side.Second → (r.1 ≡ y) × (number_of x.mark < number_of y.mark)) }
    ensures same { IfErr result (λ e. (e ≡ PairFault.Same) × (number_of x.mark ≡ number_of y.mark)) }
{
    if x.mark.number() > y.mark.number() {
        return Ok((Side::First, x));
    }
    if x.mark.number() < y.mark.number() {
        return Ok((Side::Second, y));
    }
    Err(PairFault::Same)
}
