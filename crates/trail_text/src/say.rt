// Answers as words.
ghost use Rattle.std.specs.Prelude.{◌≡◌, ◌++◌, OnOk, codes};
ghost use Rattle.print_text.specs.Text.{lacking_text, stamp_text, vector_text};
ghost use Rattle.trail_text.specs.Words.{say_text};

use crate::ask::write_words;
use dc_talk::Say;
use ids_core::NoMemory;
use print_text::{write_lacking, write_named, write_vector};
use vv_core::{Lack, Stamp, Vector};

/// Writes an answer at the end. An `Err` leaves a part of it there.
pub fn write_say(text: &mut Vec<u8>, say: &Say) -> Result<(), NoMemory>
    ensures { OnOk result (text.new.items ≡ text.old.items ++ say_text say.now) }
{
    match say {
        Say::Misfit => write_words(text, b"misfit"),
        Say::Down => write_words(text, b"down"),
        Say::Lacks { centre, need, have } => write_lack(text, b"lacks ", *centre, *need, *have),
        Say::Welcome { through } => write_named(text, b"welcome ", *through),
        Say::Snap { vector, mine, top } => {
            write_named_vector(text, b"snap ", vector)?;
            write_named(text, b" own ", *mine)?;
            write_named(text, b" top ", *top)
        }
        Say::Pruned { centre, base, at } => {
            write_named(text, b"pruned ", u64::from(*centre))?;
            write_named(text, b":", *base)?;
            write_named(text, b" at ", *at)
        }
        Say::Object { state: _ } => write_words(text, b"object"),
        Say::Changes { tail } => write_named(text, b"changes ", tail.as_slice().len() as u64),
        Say::Known { through } => write_named(text, b"known ", *through),
        Say::OutOfOrder { have } => write_named(text, b"order ", *have),
        Say::Full { limit } => write_named(text, b"full ", *limit),
        Say::Stamped { stamp } => write_stamped(text, *stamp),
        Say::Trimmed { from } => write_named(text, b"trimmed ", *from),
        Say::Records { list } => write_named(text, b"records ", list.len() as u64),
        Say::Old { have } => write_named(text, b"old ", *have),
        Say::Gap { have } => write_named(text, b"gap ", *have),
        Say::Waits { centre, need, have } => write_lack(text, b"waits ", *centre, *need, *have),
        Say::Orphan { number, have } => {
            write_named(text, b"orphan ", *number)?;
            write_named(text, b" has ", *have)
        }
        Say::Applied { fresh } => write_applied(text, *fresh),
        Say::Vector { vector } => write_named_vector(text, b"vector ", vector),
        Say::Learned { fresh } => write_learned(text, *fresh),
        Say::Base {
            vector,
            folded,
            trimmed,
        } => {
            write_named_vector(text, b"base ", vector)?;
            write_named(text, b" folded ", *folded)?;
            write_named(text, b" trimmed ", *trimmed)
        }
        Say::Stopped => write_words(text, b"stopped"),
        Say::Started => write_words(text, b"started"),
    }
}

fn write_lack(
    text: &mut Vec<u8>,
    word: &[u8],
    centre: u8,
    need: u64,
    have: u64,
) -> Result<(), NoMemory>
    ensures { OnOk result (text.new.items ≡ text.old.items ++ lacking_text word.now (record { centre = centre; need = need; have = have })) }
{
    write_lacking(text, word, &Lack { centre, need, have })
}

// A vector behind a word.
fn write_named_vector(text: &mut Vec<u8>, word: &[u8], vector: &Vector) -> Result<(), NoMemory>
    ensures { OnOk result (text.new.items ≡ text.old.items ++ (word.now ++ vector_text vector.now)) }
{
    write_words(text, word)?;
    write_vector(text, vector)
}

fn write_stamped(text: &mut Vec<u8>, stamp: Stamp) -> Result<(), NoMemory>
    ensures { OnOk result (text.new.items ≡ text.old.items ++ (codes "stamped " ++ stamp_text stamp)) }
{
    write_named(text, b"stamped ", u64::from(stamp.centre))?;
    write_named(text, b":", u64::from(stamp.seq))
}

// Whether a record's transaction was new.
fn write_applied(text: &mut Vec<u8>, fresh: bool) -> Result<(), NoMemory>
    ensures { OnOk result (text.new.items ≡ text.old.items ++ say_text (Say.Applied fresh)) }
{
    if fresh {
        write_words(text, b"applied")
    } else {
        write_words(text, b"alias")
    }
}

// Whether a vector told anything new.
fn write_learned(text: &mut Vec<u8>, fresh: bool) -> Result<(), NoMemory>
    ensures { OnOk result (text.new.items ≡ text.old.items ++ say_text (Say.Learned fresh)) }
{
    if fresh {
        write_words(text, b"learned yes")
    } else {
        write_words(text, b"learned no")
    }
}
