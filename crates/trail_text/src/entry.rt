// The entries of trails as lines.
ghost use Rattle.std.specs.Prelude.{◌≡◌, ◌++◌, OnOk};
ghost use Rattle.trail_text.specs.Trails.{entries_text, entry_text};

use crate::ask::{write_ask, write_words};
use crate::say::write_say;
use dc_talk::Entry;
use ids_core::NoMemory;
use print_text::write_named;

/// Writes the entries of a centre at the end, a line for each. An `Err` leaves a part of them there.
pub fn write_entries(text: &mut Vec<u8>, centre: u8, entries: &[Entry]) -> Result<(), NoMemory>
    ensures { OnOk result (text.new.items ≡ text.old.items ++ entries_text centre entries.now) }
{
    for (before, entry) in entries.iter().enumerate() {
        write_entry(text, centre, before as u64 + 1, entry)?;
    }
    Ok(())
}

// An entry of a centre, with its number.
fn write_entry(text: &mut Vec<u8>, centre: u8, number: u64, entry: &Entry) -> Result<(), NoMemory>
    ensures { OnOk result (text.new.items ≡ text.old.items ++ entry_text centre number entry.now) }
{
    write_named(text, b"trail ", u64::from(centre))?;
    write_named(text, b" ", number)?;
    write_named(text, b" by ", u64::from(entry.caller))?;
    write_words(text, b" ")?;
    write_ask(text, &entry.ask)?;
    write_words(text, b" ")?;
    write_say(text, &entry.say)?;
    write_words(text, b"\n")
}
