// Reading a list of words.
ghost use Rattle.std.specs.Prelude.{◌≡◌, ◌↔◌, [], ◌∷◌, Some, IfOk, IfSome, IsTrue, decimal, map, true, is_some};
ghost use Rattle.std.specs.String.{string_bytes};
ghost use Rattle.clap.specs.Words.{HasMatchesOf, takes};
ghost use Rattle.command_line.specs.Apps.{program_app};
ghost use Rattle.command_line.specs.Forms.{IsCommand, IsForm, IsFormOf, spelled};

use crate::app::program;
use crate::form::Form;
use crate::matched::form_in;
use crate::num::is_num;
use clap::ArgMatches;
use clap::error::ErrorKind;
use ids_core::NoMemory;
use std::alloc::Global;

// Whether the word is this one.
fn is(word: &str, wanted: &str) -> bool
    ensures { IsTrue result ↔ (word.now ≡ wanted.now) }
{
    word == wanted
}

// Whether the words are this one alone.
fn is_one(words: &[String], wanted: &str) -> bool
    ensures { IsTrue result ↔ (map string_bytes words.now ≡ wanted.now ∷ []) }
{
    match words {
        [word] => is(word.as_str(), wanted),
        _ => false,
    }
}

// Whether the words are these two.
fn are_two(words: &[String], first: &str, second: &str) -> bool
    ensures { IsTrue result ↔ (map string_bytes words.now ≡ first.now ∷ second.now ∷ []) }
{
    match words {
        [one, two] => is(one.as_str(), first) && is(two.as_str(), second),
        _ => false,
    }
}

// Whether the words are this command and the number.
fn are_numbered(words: &[String], name: &str, num: u32) -> bool
    ensures { IsTrue result ↔ (map string_bytes words.now ≡ name.now ∷ decimal num ∷ []) }
{
    match words {
        [one, two] => is(one.as_str(), name) && is_num(two.as_str(), num),
        _ => false,
    }
}

// Whether the words spell the form.
fn are_spelled(words: &[String], form: Form) -> bool
    ensures { IsTrue result ↔ (map string_bytes words.now ≡ spelled form) }
{
    match form {
        Form::Run { trail: true } => are_two(words, "run", "--trail"),
        Form::Run { trail: false } => is_one(words, "run"),
        Form::Serial { trail: true } => are_two(words, "serial", "--trail"),
        Form::Serial { trail: false } => is_one(words, "serial"),
        Form::Journal => is_one(words, "journal"),
        Form::Make { num } => are_numbered(words, "make", num),
        Form::Load { num } => are_numbered(words, "load", num),
        Form::Help => is_one(words, "--help"),
        Form::Version => is_one(words, "--version"),
    }
}

// What `clap` found in the words, where it takes them.
fn told<'a>(alloc: Global, words: &'a [String]) -> Result<Option<ArgMatches<'a>>, NoMemory>
    ensures taken { IfOk result (λ found. takes program_app (map string_bytes words.now) ≡ true → is_some found ≡ true) }
    ensures found { IfOk result (λ found. IfSome found (HasMatchesOf program_app (map string_bytes words.now))) }
{
    let command = program(alloc)?;
    match command.try_get_matches_from(words) {
        Ok(found) => Ok(Some(found)),
        Err(error) => match error.kind() {
            ErrorKind::OutOfMemory => Err(NoMemory),
            _ => Ok(None),
        },
    }
}

// The command that `clap` read: that one which the words spell, where they spell one.
fn command_of(alloc: Global, words: &[String]) -> Result<Option<Form>, NoMemory>
    ensures read { IfOk result (λ read. (form : Form) → IsCommand form → map string_bytes words.now ≡ spelled form → read ≡ Some form) }
    ensures known { IfOk result (λ read. IfSome read IsForm) }
{
    match told(alloc, words)? {
        Some(found) => Ok(form_in(&found)),
        None => Ok(None),
    }
}

/// The form that the words spell, which come without the program's name, or `None` where they spell
/// none. `Err` is want of memory.
pub fn form_of(alloc: Global, words: &[String]) -> Result<Option<Form>, NoMemory>
    ensures { IfOk result (IsFormOf (map string_bytes words.now)) }
{
    if is_one(words, "--help") {
        return Ok(Some(Form::Help));
    }
    if is_one(words, "--version") {
        return Ok(Some(Form::Version));
    }
    match command_of(alloc, words)? {
        Some(form) => {
            if are_spelled(words, form) {
                Ok(Some(form))
            } else {
                Ok(None)
            }
        }
        None => Ok(None),
    }
}
