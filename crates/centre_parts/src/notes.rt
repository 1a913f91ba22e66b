// What is noted of the clients.
ghost use Rattle.std.specs.Prelude.{◌≡◌, map, nat_le};
ghost use Rattle.std.specs.List.{list_all};
ghost use Rattle.std.specs.Ordering.{nat_cmp};
ghost use Rattle.ids_core.specs.declared.limits.TheConstants.{MOST_CLIENTS};
ghost use Rattle.tx_core.specs.Checks.{is_within};
ghost use Rattle.join_bundle.specs.Tests.{ascends, ascends_from, is_centre};
ghost use Rattle.centre_parts.specs.Tests.{are_notes};

use dup_guard::Noted;
use ids_core::MOST_CLIENTS;
use join_bundle::is_centre;

// Whether a guard can be made of the notes: their clients ascend, and clients and numbers are in range.
pub(crate) fn are_notes(notes: &[Noted]) -> bool
    ensures { result ≡ are_notes notes.now }
{
    clients_ascend(notes) && are_clients(notes) && have_numbers(notes)
}

// Whether the clients strictly ascend.
fn clients_ascend(notes: &[Noted]) -> bool
    ensures { result ≡ ascends nat_cmp (map (λ c. c.client) notes.now) }
{
    match notes {
        [] => true,
        [first, rest @ ..] => clients_ascend_from(first.client, rest),
    }
}

// Whether they do so from above a client on.
fn clients_ascend_from(low: u32, notes: &[Noted]) -> bool
    ensures { result ≡ ascends_from nat_cmp low (map (λ c. c.client) notes.now) }
{
    let mut last = low;
    for note in notes {
        if last >= note.client {
            return false;
        }
        last = note.client;
    }
    true
}

// Whether each client is in range.
fn are_clients(notes: &[Noted]) -> bool
    ensures { result ≡ list_all (λ c. is_within 1 MOST_CLIENTS c.client) notes.now }
{
    notes
        .iter()
        .all(|note| 1 <= note.client && note.client <= MOST_CLIENTS)
}

// Whether each client has a number.
fn have_numbers(notes: &[Noted]) -> bool
    ensures { result ≡ list_all (λ c. nat_le 1 c.number) notes.now }
{
    notes.iter().all(|note| 1 <= note.number)
}

// Whether each client's stamp is of one of so many centres.
pub(crate) fn have_stamps_of(notes: &[Noted], n: u8) -> bool
    ensures { result ≡ list_all (λ c. is_centre n c.stamp.centre) notes.now }
{
    notes.iter().all(|note| is_centre(n, note.stamp.centre))
}
