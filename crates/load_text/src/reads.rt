// The values that were read behind the last phase.
ghost use Rattle.std.specs.Prelude.{◌≡◌, ◌++◌, ◌∷◌, [], IfOk, OnOk, filter, map};
ghost use Rattle.load_text.specs.LastReads.{is_later_value, later_values, load_text};

use crate::last::last_phase;
use dc_talk::{Deed, Line, Log, Note};
use ids_core::NoMemory;
use list_core::List;
use print_text::text_of;
use script_core::Script;
use std::alloc::Global;

/// The text of what a script was played to: of the lines of all actors' logs, the operator's first, those alone that tell
/// the values of the reads behind the script's last phase, in the order and the form of the text of a run. It takes time
/// in the number of notes and the greatest section, and copies just the notes that it writes. `Err` is want of memory.
pub fn load_text(alloc: Global, script: &Script, logs: &[Log]) -> Result<Vec<u8>, NoMemory>
    ensures { IfOk result (λ text. text.items ≡ load_text script.now logs.now) }
{
    let values = values_in(alloc, last_phase(script), logs)?;
    let text = text_of(alloc, values.as_slice())?;
    Ok(text)
}

// The logs with the notes alone that tell the values of reads behind this section.
fn values_in(alloc: Global, last: usize, logs: &[Log]) -> Result<List<Log>, NoMemory>
    ensures { IfOk result (λ values. values ≡ map (later_values last) logs.now) }
{
    let mut values = List::new(alloc);
    for log in logs {
        values.push(values_of(alloc, last, log)?)?;
    }
    Ok(values)
}

// A log with those notes alone.
fn values_of(alloc: Global, last: usize, log: &Log) -> Result<Log, NoMemory>
    ensures { IfOk result (λ values. values ≡ later_values last log.now) }
{
    let mut values = Log::new(alloc, log.actor());
    for note in log.as_slice() {
        add_value(&mut values, last, note)?;
    }
    values.set(0, 0);
    Ok(values)
}

// Puts a note at the end, where it is one of those.
fn add_value(values: &mut Log, last: usize, note: &Note) -> Result<(), NoMemory>
    ensures actor { OnOk result (values.new.actor ≡ values.old.actor) }
    ensures notes { OnOk result (values.new.notes ≡ values.old.notes ++ filter (is_later_value last) (note.now ∷ [])) }
{
    if last < note.section as usize {
        if let Deed::Told(
            Line::ReadValue {
                client,
                object,
                value,
            },
        ) = &note.deed
        {
            values.set(note.section, note.step);
            values.push(Deed::Told(Line::ReadValue {
                client: *client,
                object: *object,
                value: value.clone()?,
            }))?;
        }
    }
    Ok(())
}
