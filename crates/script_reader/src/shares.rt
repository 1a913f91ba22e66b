// Bounded counters, their holders and their cells, as a script spells them.
ghost use Rattle.std.specs.Prelude.{◌≡◌};
ghost use Rattle.script_core.specs.Steps.{holders_of, is_cell_name};
ghost use Rattle.script_reader.specs.Shares.{bounded_in, is_cell, summand_in};

use crate::fault::Cause;
use crate::names::{name_said, object_named};
use ids_core::{Name, ObjectId, Sort};
use obj_bounded::{MOST_BOUNDED_NAME, MOST_HOLDERS};

/// How many holders each bounded counter has among so many clients.
pub fn holders_of(clients: u32) -> u8
    ensures { result ≡ holders_of clients }
{
    clients.min(u32::from(MOST_HOLDERS)) as u8
}

/// The name of the bounded counter that a word names.
#[tactic(auto, unfolding(crate::specs::Shares::bounded_in))]
pub fn bounded_in(word: &[u8]) -> Result<Name, Cause>
    ensures { result ≡ bounded_in word.now }
{
    if word.len() < 2 || word[0] != b'b' || word[1] != b'.' {
        return Err(Cause::Name);
    }
    let (_, rest) = word.split_at(2);
    if rest.len() <= MOST_BOUNDED_NAME {
        name_said(rest)
    } else {
        Err(Cause::Name)
    }
}

// Whether a name begins as those of the cells of bounded counters do.
fn is_cell_name(name: &[u8]) -> bool
    ensures { result ≡ is_cell_name name.now }
{
    name.starts_with(b"bc_")
}

// Whether an object may be a cell of a bounded counter.
fn is_cell(object: &ObjectId) -> bool
    ensures { result ≡ is_cell object.now }
{
    object.sort == Sort::Counter && is_cell_name(object.name.as_slice())
}

/// The object that a word names, and to which may be added: none that may be a cell of a bounded counter.
pub fn summand_in(word: &[u8]) -> Result<ObjectId, Cause>
    ensures { result ≡ summand_in word.now }
{
    match object_named(word) {
        Some(object) => {
            if is_cell(&object) {
                Err(Cause::Name)
            } else {
                Ok(object)
            }
        }
        None => Err(Cause::Name),
    }
}
