// The transactions that are not folded.
ghost use Rattle.std.specs.Prelude.{◌≡◌, ◌&&◌, true, nat_le, length, IfOk};
ghost use Rattle.std.specs.List.{list_all};
ghost use Rattle.ids_core.specs.declared.limits.TheConstants.{MOST_UPDATES};
ghost use Rattle.dup_guard.specs.Notes.{number_of};
ghost use Rattle.centre_parts.specs.Conditions.{noted};
ghost use Rattle.centre_parts.specs.Tests.{are_notes};

use crate::notes::are_notes;
use dup_guard::{Guard, Noted};
use ids_core::{MOST_UPDATES, NoMemory};
use std::alloc::Global;
use tx_core::RestPart;

// Whether each transaction has few updates.
pub(crate) fn have_few_updates(rest: &[RestPart]) -> bool
    ensures { result ≡ list_all (λ r. nat_le (length r.tx.updates) MOST_UPDATES) rest.now }
{
    rest.iter()
        .all(|part| part.tx.updates.len() <= MOST_UPDATES as usize)
}

// Whether each transaction's number is at most its client's that is noted.
pub(crate) fn are_noted(alloc: Global, notes: &[Noted], rest: &[RestPart]) -> Result<bool, NoMemory>
    ensures { IfOk result (λ met. met ≡ (are_notes notes.now && list_all (λ r. nat_le r.tx.dot.number (noted notes.now r.tx.dot.client)) rest.now)) }
{
    if !are_notes(notes) {
        return Ok(false);
    }
    are_within(alloc, notes, rest)
}

// The same where a guard can be made of the notes.
fn are_within(alloc: Global, notes: &[Noted], rest: &[RestPart]) -> Result<bool, NoMemory>
    requires { are_notes notes.now ≡ true }
    ensures { IfOk result (λ met. met ≡ list_all (λ r. nat_le r.tx.dot.number (noted notes.now r.tx.dot.client)) rest.now) }
{
    let guard = Guard::of_parts(alloc, notes)?;
    Ok(are_seen(&guard, rest))
}

// Whether the guard has seen each transaction.
fn are_seen(guard: &Guard, rest: &[RestPart]) -> bool
    ensures { result ≡ list_all (λ r. nat_le r.tx.dot.number (number_of guard.now r.tx.dot.client)) rest.now }
{
    rest.iter().all(|part| part.tx.dot.number <= guard.through(part.tx.dot.client))
}
