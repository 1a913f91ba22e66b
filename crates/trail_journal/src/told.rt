// What is told of the journal of a centre.
ghost use Rattle.std.specs.Prelude.{◌≡◌, ◌++◌, OnOk};
ghost use Rattle.trail_journal.specs.Told.{journal_line};

use ids_core::NoMemory;
use print_text::{write_named, write_vector};
use vv_core::Vector;

/// What is told of the journal of a centre: how many entries its file has and how many bytes, and how many records of
/// each centre the centre has that was opened from it.
#[derive(Clone, Copy)]
pub struct Told {
    pub centre: u8,
    pub entries: u64,
    pub bytes: u64,
    pub vector: Vector,
}

/// Writes the line of a journal at the end. An `Err` leaves a part of it there.
pub fn write_told(text: &mut Vec<u8>, told: &Told) -> Result<(), NoMemory>
    ensures { OnOk result (text.new.items ≡ text.old.items ++ journal_line told.now) }
{
    write_named(text, b"journal ", u64::from(told.centre))?;
    write_named(text, b" entries ", told.entries)?;
    write_named(text, b" bytes ", told.bytes)?;
    text.extend_from_slice(b" vector ")?;
    write_vector(text, &told.vector)?;
    text.extend_from_slice(b"\n")?;
    Ok(())
}
