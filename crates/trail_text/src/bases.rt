// What reads stand on as lines.
ghost use Rattle.std.specs.Prelude.{◌≡◌, ◌++◌, OnOk, codes, flat_map};
ghost use Rattle.trail_text.specs.Words.{dot_text};
ghost use Rattle.trail_text.specs.Trails.{bases_text, basis_text};

use crate::ask::{write_dot, write_words};
use ids_core::{Dot, NoMemory};
use print_text::write_named;
use run_book::Dots;

/// Writes what the reads of a client stand on at the end, a line for each. An `Err` leaves a part of them there.
pub fn write_bases(text: &mut Vec<u8>, client: u64, bases: &[Dots]) -> Result<(), NoMemory>
    ensures { OnOk result (text.new.items ≡ text.old.items ++ bases_text client bases.now) }
{
    for (before, dots) in bases.iter().enumerate() {
        write_basis(text, client, before as u64 + 1, dots.as_slice())?;
    }
    Ok(())
}

// What a read of a client stands on, with the number of the read.
fn write_basis(text: &mut Vec<u8>, client: u64, number: u64, dots: &[Dot]) -> Result<(), NoMemory>
    ensures { OnOk result (text.new.items ≡ text.old.items ++ basis_text client number dots.now) }
{
    write_named(text, b"basis c", client)?;
    write_named(text, b" ", number)?;
    write_dots(text, dots)?;
    write_words(text, b"\n")
}

// Dots, each behind a space.
fn write_dots(text: &mut Vec<u8>, dots: &[Dot]) -> Result<(), NoMemory>
    ensures { OnOk result (text.new.items ≡ text.old.items ++ flat_map (λ dot. codes " " ++ dot_text dot) dots.now) }
{
    for dot in dots {
        write_words(text, b" ")?;
        write_dot(text, *dot)?;
    }
    Ok(())
}
