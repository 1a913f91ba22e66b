// The clients of a point.
ghost use Rattle.std.specs.Prelude.{◌≡◌, map};
ghost use Rattle.std.specs.Ordering.{nat_cmp};
ghost use Rattle.join_bundle.specs.Tests.{ascends, ascends_from};

use check_point::Folded;

// Whether the clients strictly ascend.
pub(crate) fn clients_ascend(clients: &[Folded]) -> bool
    ensures { result ≡ ascends nat_cmp (map (λ c. c.client) clients.now) }
{
    match clients {
        [] => true,
        [first, rest @ ..] => clients_ascend_from(first.client, rest),
    }
}

// Whether they do so from above a client on.
fn clients_ascend_from(low: u32, clients: &[Folded]) -> bool
    ensures { result ≡ ascends_from nat_cmp low (map (λ c. c.client) clients.now) }
{
    let mut last = low;
    for part in clients {
        if last >= part.client {
            return false;
        }
        last = part.client;
    }
    true
}
