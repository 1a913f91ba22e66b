// The text of a book's trails.
ghost use Rattle.std.specs.Prelude.{◌≡◌, ◌+◌, ◌++◌, IfOk, OnOk, flat_map};
ghost use Rattle.std.specs.List.{range_with_len};
ghost use Rattle.run_book.specs.Fit.{FitsWith};
ghost use Rattle.run_book.specs.ReadBases.{bases_of};
ghost use Rattle.run_book.specs.Setups.{Setup};
ghost use Rattle.trail_text.specs.Trails.{bases_text, trail_text, trails_text};

use crate::bases::write_bases;
use crate::entry::write_entries;
use ids_core::NoMemory;
use run_book::Book;
use std::alloc::Global;

/// The text of the trails of a book: a line for each entry, centre by centre, and then one for each read with a value,
/// client by client, with the transactions that it stands on (Middleware 2015). Of a book that does not fit nothing is
/// said. It takes time in the number of notes and entries and, but for a sort of each line of dots, of what it writes.
pub fn trail_text(alloc: Global, book: &Book) -> Result<Vec<u8>, NoMemory>
    ensures { IfOk result (λ text. (setup : Setup) → FitsWith book.now setup → text.items ≡ trail_text book.now setup) }
{
    let mut text = Vec::new(alloc);
    write_trails(&mut text, book)?;
    write_reads(alloc, &mut text, book)?;
    Ok(text)
}

// The entries of all centres.
fn write_trails(text: &mut Vec<u8>, book: &Book) -> Result<(), NoMemory>
    ensures { OnOk result (text.new.items ≡ text.old.items ++ trails_text book.now) }
{
    for before in 0..book.n {
        write_entries(text, before + 1, book.trail(before + 1))?;
    }
    Ok(())
}

// What the reads of all clients stand on.
fn write_reads(alloc: Global, text: &mut Vec<u8>, book: &Book) -> Result<(), NoMemory>
    ensures { OnOk result ((setup : Setup) → FitsWith book.now setup →
        text.new.items ≡ text.old.items ++ flat_map (λ client. bases_text client (bases_of book.now setup (client + 1))) (range_with_len 1 setup.clients)) }
{
    let stamped = book.stamped(alloc)?;
    // Behind the clients' logs there are those of four workers for each centre.
    let end = book
        .logs
        .as_slice()
        .len()
        .saturating_sub(4 * usize::from(book.n));
    for client in 1..end {
        let bases = book.bases(alloc, &stamped, client)?;
        write_bases(text, client as u64, &bases)?;
    }
    Ok(())
}
