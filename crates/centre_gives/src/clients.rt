// The clients of a bundle.
ghost use Rattle.std.specs.Prelude.{◌≡◌, IfOk};
ghost use Rattle.check_point.specs.PointParts.{AscendByClient};
ghost use Rattle.centre_gives.specs.Parts.{folded_in, client_part, client_parts};

use check_point::Folded;
use dup_guard::Noted;
use ids_core::NoMemory;
use join_bundle::{ClientPart, ClientParts};
use list_core::List;
use std::alloc::Global;

// The parts of the clients that are noted, in their order. Time: linear in them, with a logarithm.
pub(crate) fn clients_of(
    alloc: Global,
    notes: &[Noted],
    numbers: &[Folded],
) -> Result<ClientParts, NoMemory>
    requires { AscendByClient numbers.now }
    ensures { IfOk result (λ parts. parts ≡ client_parts notes.now numbers.now) }
{
    let mut parts = List::new(alloc);
    for note in notes {
        parts.push(client_of(note, numbers))?;
    }
    Ok(parts)
}

// The part of a client that is noted.
fn client_of(note: &Noted, numbers: &[Folded]) -> ClientPart
    requires { AscendByClient numbers.now }
    ensures { result ≡ client_part numbers.now note.now }
{
    ClientPart {
        client: note.client,
        number: note.number,
        stamp: note.stamp,
        folded: folded_of(numbers, note.client),
    }
}

// The greatest number of a client that is folded, 0 where none is.
fn folded_of(numbers: &[Folded], client: u32) -> u64
    requires { AscendByClient numbers.now }
    ensures { result ≡ folded_in numbers.now client }
{
    match numbers.binary_search_by_key(&client, |part| part.client) {
        Ok(place) => numbers[place].number,
        Err(_) => 0,
    }
}
