// Names and objects, as a script spells them.
ghost use Rattle.std.specs.Prelude.{◌≡◌, Some, None, if◌then◌else◌};
ghost use Rattle.script_reader.specs.Names.{is_name, object_named, sort_marked};

use crate::fault::Cause;
use ids_core::{Name, ObjectId, Sort};

// The name that a word is, if it is one.
fn name_in(word: &[u8]) -> Option<Name>
    ensures { result ≡ (if is_name word.now then Some word.now else None) }
{
    match Name::read(word) {
        Ok(name) => Some(name),
        Err(_) => None,
    }
}

/// The name that a word is.
pub fn name_said(word: &[u8]) -> Result<Name, Cause>
    ensures { result ≡ (if is_name word.now then Ok word.now else Err Cause.Name) }
{
    match name_in(word) {
        Some(name) => Ok(name),
        None => Err(Cause::Name),
    }
}

// The kind of objects that a letter marks.
fn sort_marked(letter: u8) -> Option<Sort>
    ensures { result ≡ sort_marked letter }
{
    match letter {
        b'c' => Some(Sort::Counter),
        b'r' => Some(Sort::Register),
        b's' => Some(Sort::Set),
        b'm' => Some(Sort::Map),
        _ => None,
    }
}

/// The object that a word names, if it names one.
#[tactic(auto, unfolding(crate::specs::Names::object_named))]
pub fn object_named(word: &[u8]) -> Option<ObjectId>
    ensures { result ≡ object_named word.now }
{
    if word.len() < 2 || word[1] != b'.' {
        return None;
    }
    let (_, rest) = word.split_at(2);
    match name_in(rest) {
        Some(name) => match sort_marked(word[0]) {
            Some(sort) => Some(ObjectId { sort, name }),
            None => None,
        },
        None => None,
    }
}
