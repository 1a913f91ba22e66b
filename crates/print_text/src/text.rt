// The text of logs: the lines that they tell, section by section.
ghost use Rattle.std.specs.Prelude.{◌≡◌, ◌++◌, ◌∷◌, [], IfOk, OnOk, map};
ghost use Rattle.vv_core.specs.Vectors.{most};
ghost use Rattle.print_text.specs.Text.{last_section, lines_in, operator_last, section_text, text_of, told_text};
ghost use Rattle.print_text.specs.Parts.{Adds, HasEmptyParts, texts_in};

use crate::line::write_line;
use dc_talk::{Deed, Log, Note};
use ids_core::NoMemory;
use std::alloc::Global;

/// The text of the logs of all actors, the operator's first: section by section the lines of the clients, in the
/// order of the clients, and those of the operator last, each with its line feed. It takes time in the number of
/// notes and the greatest section.
pub fn text_of(alloc: Global, logs: &[Log]) -> Result<Vec<u8>, NoMemory>
    ensures { IfOk result (λ text. text.items ≡ text_of logs.now) }
{
    let mut parts = empty_parts(alloc, last_section(logs))?;
    add_all(&mut parts, logs)?;
    let text = joined(alloc, parts.as_slice())?;
    Ok(text)
}

// The greatest section of the notes of logs, and 0 where there are none.
fn last_section(logs: &[Log]) -> u32
    ensures { result ≡ last_section logs.now }
{
    let mut last = 0;
    for log in logs {
        last = last.max(greatest_section(log.as_slice()));
    }
    last
}

// The greatest section of notes, and 0 where there are none.
fn greatest_section(notes: &[Note]) -> u32
    ensures { result ≡ most (map (λ note. note.section) notes.now) }
{
    let mut last = 0;
    for note in notes {
        last = last.max(note.section);
    }
    last
}

// A text for each of so many sections, without a line.
fn empty_parts(alloc: Global, sections: u32) -> Result<Vec<Vec<u8>>, NoMemory>
    ensures { IfOk result (λ parts. HasEmptyParts sections parts.items) }
{
    let mut parts = Vec::new(alloc);
    for _section in 0..sections {
        parts.push(Vec::new(alloc))?;
    }
    Ok(parts)
}

// Writes the lines of logs, each to the text of its section, those of the first log behind the others.
fn add_all(parts: &mut Vec<Vec<u8>>, logs: &[Log]) -> Result<(), NoMemory>
    ensures { OnOk result (Adds (lines_in (operator_last logs.now)) parts.old.items parts.new.items) }
{
    match logs.split_first() {
        Some((operator, others)) => {
            add_logs(parts, others)?;
            add_notes(parts, operator.as_slice())
        }
        None => Ok(()),
    }
}

// Writes the lines of logs, one log behind the other, each to the text of its section.
fn add_logs(parts: &mut Vec<Vec<u8>>, logs: &[Log]) -> Result<(), NoMemory>
    ensures { OnOk result (Adds (lines_in logs.now) parts.old.items parts.new.items) }
{
    for log in logs {
        add_notes(parts, log.as_slice())?;
    }
    Ok(())
}

// Writes the lines of notes, each to the text of its section.
fn add_notes(parts: &mut Vec<Vec<u8>>, notes: &[Note]) -> Result<(), NoMemory>
    ensures { OnOk result (Adds (λ section. section_text section notes.now) parts.old.items parts.new.items) }
{
    for note in notes {
        add_note(parts, note)?;
    }
    Ok(())
}

// Writes the line of a note to the text of its section, where there is one.
fn add_note(parts: &mut Vec<Vec<u8>>, note: &Note) -> Result<(), NoMemory>
    ensures { OnOk result (Adds (λ section. section_text section (note.now ∷ [])) parts.old.items parts.new.items) }
{
    let section = note.section as usize;
    if 1 <= section && section <= parts.len() {
        let part = &mut parts[section - 1];
        write_deed(part, &note.deed)?;
    }
    Ok(())
}

/// Writes the line that a deed tells, with its line feed, and nothing of another deed. An `Err`
/// leaves a part of the line at the end.
pub fn write_deed(text: &mut Vec<u8>, deed: &Deed) -> Result<(), NoMemory>
    ensures { OnOk result (text.new.items ≡ text.old.items ++ told_text deed.now) }
{
    if let Deed::Told(line) = deed {
        write_line(text, line)?;
        text.extend_from_slice(b"\n")?;
    }
    Ok(())
}

// The texts of all sections, one behind the other.
fn joined(alloc: Global, parts: &[Vec<u8>]) -> Result<Vec<u8>, NoMemory>
    ensures { IfOk result (λ text. text.items ≡ texts_in parts.now) }
{
    let mut text = Vec::new(alloc);
    for part in parts {
        text.extend_from_slice(part.as_slice())?;
    }
    Ok(text)
}
