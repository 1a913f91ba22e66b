// Asks as words.
ghost use Rattle.std.specs.Prelude.{◌≡◌, ◌++◌, OnOk};
ghost use Rattle.script_core.specs.Steps.{object_text};
ghost use Rattle.trail_text.specs.Words.{ask_text, dot_text};

use dc_talk::Ask;
use ids_core::{Dot, NoMemory, ObjectId};
use print_text::{write_named, write_object};

/// Writes an ask at the end. An `Err` leaves a part of it there.
pub fn write_ask(text: &mut Vec<u8>, ask: &Ask) -> Result<(), NoMemory>
    ensures { OnOk result (text.new.items ≡ text.old.items ++ ask_text ask.now) }
{
    match ask {
        Ask::Hello { client: _, need: _ } => write_words(text, b"hello"),
        Ask::Refresh { client: _, at: _ } => write_words(text, b"refresh"),
        Ask::Fetch { object, .. } => write_about(text, b"fetch ", object),
        Ask::Delta { object, .. } => write_about(text, b"delta ", object),
        Ask::Commit { tx } => {
            write_words(text, b"commit ")?;
            write_dot(text, tx.as_tx().dot)
        }
        Ask::Send { after, most: _ } => write_named(text, b"send ", *after),
        Ask::Deliver { item, hops: _ } => {
            let stamp = item.as_record().stamp;
            write_named(text, b"deliver ", u64::from(stamp.centre))?;
            write_named(text, b":", u64::from(stamp.seq))
        }
        Ask::Relay {
            origin,
            after,
            most: _,
        } => {
            write_named(text, b"relay ", u64::from(*origin))?;
            write_named(text, b" ", *after)
        }
        Ask::Report => write_words(text, b"report"),
        Ask::Learn { from, vector: _ } => write_named(text, b"learn ", u64::from(*from)),
        Ask::Prune => write_words(text, b"prune"),
        Ask::Stop => write_words(text, b"stop"),
        Ask::Start => write_words(text, b"start"),
    }
}

// Writes an object behind words.
fn write_about(text: &mut Vec<u8>, words: &[u8], object: &ObjectId) -> Result<(), NoMemory>
    ensures { OnOk result (text.new.items ≡ text.old.items ++ (words.now ++ object_text object.now)) }
{
    write_words(text, words)?;
    write_object(text, object)
}

/// Writes a dot at the end. An `Err` leaves a part of it there.
pub fn write_dot(text: &mut Vec<u8>, dot: Dot) -> Result<(), NoMemory>
    ensures { OnOk result (text.new.items ≡ text.old.items ++ dot_text dot) }
{
    write_named(text, b"", u64::from(dot.client))?;
    write_named(text, b".", dot.number)
}

/// Writes words at the end. An `Err` leaves the text as it was.
pub fn write_words(text: &mut Vec<u8>, words: &[u8]) -> Result<(), NoMemory>
    ensures { OnOk result (text.new.items ≡ text.old.items ++ words.now) }
{
    text.extend_from_slice(words)?;
    Ok(())
}
