// The values of objects as bytes.
ghost use Rattle.std.specs.Prelude.{◌≡◌, ◌++◌, OnOk, codes, map};
ghost use Rattle.std.specs.Fmt.{signed_decimal};
ghost use Rattle.std.specs.List.{join_with_byte};
ghost use Rattle.print_text.specs.Text.{braced, later, pair_text, value_text, word_or_none};

use ids_core::{Name, NoMemory};
use itoa::Buffer;
use tx_core::Value;

/// Writes a value at the end. An `Err` leaves a part of it there.
pub fn write_value(text: &mut Vec<u8>, value: &Value) -> Result<(), NoMemory>
    ensures { OnOk result (text.new.items ≡ text.old.items ++ value_text value.now) }
{
    match value {
        Value::Number(sum) => write_sum(text, *sum),
        Value::Word(word) => write_register(text, word),
        Value::Words(words) => write_set(text, words.as_slice()),
        Value::Pairs(pairs) => write_map(text, pairs.as_slice()),
    }
}

/// Writes a sum at the end, with `-` where it is negative. An `Err` leaves a part of it there.
pub fn write_sum(text: &mut Vec<u8>, sum: i128) -> Result<(), NoMemory>
    ensures { OnOk result (text.new.items ≡ text.old.items ++ signed_decimal sum) }
{
    let mut buffer = Buffer::new();
    text.extend_from_slice(buffer.format(sum).as_bytes())?;
    Ok(())
}

fn write_register(text: &mut Vec<u8>, word: &Option<Name>) -> Result<(), NoMemory>
    ensures { OnOk result (text.new.items ≡ text.old.items ++ word_or_none word.now) }
{
    match word {
        Some(word) => write_name(text, word),
        None => {
            text.extend_from_slice(b"-")?;
            Ok(())
        }
    }
}

// The words of a set.
fn write_set(text: &mut Vec<u8>, words: &[Name]) -> Result<(), NoMemory>
    ensures { OnOk result (text.new.items ≡ text.old.items ++ braced words.now) }
{
    text.extend_from_slice(b"{")?;
    write_words(text, words)?;
    text.extend_from_slice(b"}")?;
    Ok(())
}

// Words with a space between them.
fn write_words(text: &mut Vec<u8>, words: &[Name]) -> Result<(), NoMemory>
    ensures { OnOk result (text.new.items ≡ text.old.items ++ join_with_byte 32 words.now) }
{
    if let [first, rest @ ..] = words {
        write_name(text, first)?;
        write_later_words(text, rest)?;
    }
    Ok(())
}

// Words behind a first one.
fn write_later_words(text: &mut Vec<u8>, words: &[Name]) -> Result<(), NoMemory>
    ensures { OnOk result (text.new.items ≡ text.old.items ++ later 32 words.now) }
{
    for word in words {
        write_space(text)?;
        write_name(text, word)?;
    }
    Ok(())
}

// The keys of a map with their words.
fn write_map(text: &mut Vec<u8>, pairs: &[(Name, Name)]) -> Result<(), NoMemory>
    ensures { OnOk result (text.new.items ≡ text.old.items ++ braced (map pair_text pairs.now)) }
{
    text.extend_from_slice(b"{")?;
    write_pairs(text, pairs)?;
    text.extend_from_slice(b"}")?;
    Ok(())
}

// Keys with their words, with a space between them.
fn write_pairs(text: &mut Vec<u8>, pairs: &[(Name, Name)]) -> Result<(), NoMemory>
    ensures { OnOk result (text.new.items ≡ text.old.items ++ join_with_byte 32 (map pair_text pairs.now)) }
{
    if let [first, rest @ ..] = pairs {
        write_pair(text, first)?;
        write_later_pairs(text, rest)?;
    }
    Ok(())
}

// Keys with their words behind a first one.
fn write_later_pairs(text: &mut Vec<u8>, pairs: &[(Name, Name)]) -> Result<(), NoMemory>
    ensures { OnOk result (text.new.items ≡ text.old.items ++ later 32 (map pair_text pairs.now)) }
{
    for pair in pairs {
        write_space(text)?;
        write_pair(text, pair)?;
    }
    Ok(())
}

fn write_pair(text: &mut Vec<u8>, pair: &(Name, Name)) -> Result<(), NoMemory>
    ensures { OnOk result (text.new.items ≡ text.old.items ++ pair_text pair.now) }
{
    let (key, word) = pair;
    write_name(text, key)?;
    text.extend_from_slice(b"=")?;
    write_name(text, word)
}

fn write_name(text: &mut Vec<u8>, name: &Name) -> Result<(), NoMemory>
    ensures { OnOk result (text.new.items ≡ text.old.items ++ name.now) }
{
    text.extend_from_slice(name.as_slice())?;
    Ok(())
}

fn write_space(text: &mut Vec<u8>) -> Result<(), NoMemory>
    ensures { OnOk result (text.new.items ≡ text.old.items ++ codes " ") }
{
    text.extend_from_slice(b" ")?;
    Ok(())
}
