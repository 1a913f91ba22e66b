// The lines that a log tells, as they are printed.
use dc_talk::Log;
use ids_core::NoMemory;
use print_text::write_deed;
use std::alloc::Global;

/// Whether the notes of a log behind the first so many tell these lines, each with its line feed.
pub fn tells(alloc: Global, log: &Log, before: usize, want: &str) -> Result<bool, NoMemory> {
    let mut text = Vec::new(alloc);
    for note in log.as_slice().iter().skip(before) {
        write_deed(&mut text, &note.deed)?;
    }
    Ok(text.as_slice() == want.as_bytes())
}
