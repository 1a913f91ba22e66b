// The clients of a bundle.
ghost use Rattle.std.specs.Prelude.{◌≡◌, nat_le, map};
ghost use Rattle.std.specs.List.{list_all};
ghost use Rattle.std.specs.Ordering.{nat_cmp};
ghost use Rattle.ids_core.specs.declared.limits.TheConstants.{MOST_CLIENTS};
ghost use Rattle.tx_core.specs.Checks.{is_within};
ghost use Rattle.join_bundle.specs.Tests.{ascends, ascends_from, is_centre};

use crate::part::ClientPart;
use crate::vectors::is_centre;
use ids_core::MOST_CLIENTS;

// Whether the clients strictly ascend.
pub(crate) fn clients_ascend(clients: &[ClientPart]) -> bool
    ensures { result ≡ ascends nat_cmp (map (λ c. c.client) clients.now) }
{
    match clients {
        [] => true,
        [first, rest @ ..] => clients_ascend_from(first.client, rest),
    }
}

// Whether they do so from above a client on.
fn clients_ascend_from(low: u32, clients: &[ClientPart]) -> bool
    ensures { result ≡ ascends_from nat_cmp low (map (λ c. c.client) clients.now) }
{
    let mut last = low;
    for part in clients {
        if last >= part.client {
            return false;
        }
        last = part.client;
    }
    true
}

// Whether each client is in range.
pub(crate) fn are_clients(clients: &[ClientPart]) -> bool
    ensures { result ≡ list_all (λ c. is_within 1 MOST_CLIENTS c.client) clients.now }
{
    clients
        .iter()
        .all(|part| 1 <= part.client && part.client <= MOST_CLIENTS)
}

// Whether each client has a number.
pub(crate) fn have_numbers(clients: &[ClientPart]) -> bool
    ensures { result ≡ list_all (λ c. nat_le 1 c.number) clients.now }
{
    clients.iter().all(|part| 1 <= part.number)
}

// Whether each client's stamp is of one of so many centres.
pub(crate) fn have_stamps_of(clients: &[ClientPart], n: u8) -> bool
    ensures { result ≡ list_all (λ c. is_centre n c.stamp.centre) clients.now }
{
    clients.iter().all(|part| is_centre(n, part.stamp.centre))
}
