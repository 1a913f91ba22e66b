// Advice on an input that is no script.
ghost use Rattle.std.specs.Prelude.{◌≡◌, ◌++◌, IfOk, OnOk, codes, decimal, string_bytes};
ghost use Rattle.script_advice.specs.Advice.{IsAdvice, is_many, line_told};

use crate::before::{Before, read_before};
use crate::kinds::odd_kind;
use crate::limits::{odd_byte, one_too_many, too_long};
use crate::lines::{first_of, from_line, words_in};
use crate::places::{early_end, odd_place_of};
use crate::shown::{push_escaped, push_shown, unclear};
use crate::values::odd_value;
use crate::words::{odd_count, odd_word};
use ids_core::NoMemory;
use script_reader::{Cause, Form, form_of, without_return};
use std::alloc::{AllocError, Global};

// Why a line of this form is refused.
fn reason_by_form(
    alloc: Global,
    before: &Before,
    form: Form,
    words: &[&[u8]],
    cause: Cause,
) -> Result<String, AllocError> {
    match cause {
        Cause::Kind => odd_kind(alloc, form, words),
        Cause::Place => odd_place_of(alloc, before, form, words),
        _ => odd_value(alloc, before.reading.header(), form, words),
    }
}

// Why a line is refused for its words.
fn reason_by_words(
    alloc: Global,
    before: &Before,
    line: &[u8],
    cause: Cause,
) -> Result<String, AllocError> {
    let words = words_in(alloc, line)?;
    match cause {
        Cause::Word => odd_word(alloc, &words),
        Cause::Count => odd_count(alloc, &words),
        _ => match form_of(line) {
            Ok(form) => reason_by_form(alloc, before, form, &words, cause),
            Err(_) => unclear(alloc),
        },
    }
}

// Why a line is refused behind those before it. Where it has no bytes, it is the end of the input.
fn reason_behind(
    alloc: Global,
    before: &Before,
    line: &[u8],
    cause: Cause,
) -> Result<String, AllocError> {
    if line.is_empty() {
        early_end(alloc, before)
    } else {
        reason_by_words(alloc, before, line, cause)
    }
}

// Why the line of this number is refused, with which this text begins.
fn reason(
    alloc: Global,
    input: &[u8],
    number: u32,
    text: &[u8],
    cause: Cause,
) -> Result<String, AllocError> {
    let line = first_of(text);
    match cause {
        Cause::Many => one_too_many(alloc),
        Cause::Long => too_long(alloc, line, line.len() < text.len()),
        Cause::Byte => odd_byte(alloc, without_return(line)),
        _ => {
            let before = read_before(alloc, input, number)?;
            reason_behind(alloc, &before, without_return(line), cause)
        }
    }
}

// With what the advice on the line of this number begins.
fn heading(alloc: Global, number: u32) -> Result<String, AllocError>
    ensures { IfOk result (λ text. string_bytes text ≡ codes "line " ++ decimal number ++ codes ": ") }
{
    format!(in alloc; "line {number}: ")
}

// Whether the line is one too many.
fn is_many(cause: Cause) -> bool
    ensures { result ≡ is_many cause }
{
    matches!(cause, Cause::Many)
}

// Writes a line in a line of its own.
fn push_line(text: &mut String, line: &[u8], cause: Cause) -> Result<(), AllocError>
    ensures { OnOk result (string_bytes text.new ≡ string_bytes text.old ++ line_told line.now cause) }
{
    if line.is_empty() || is_many(cause) {
        return Ok(());
    }
    text.push_str("\n    ")?;
    push_shown(text, without_return(line))
}

/// What to tell a user of an input whose first line at fault is this one, counted from 1, and is refused for this
/// cause. In one line it has the number, why the line is refused and what was expected; and in a second one, four spaces
/// in, the line itself, unless the input ends before it or has lines enough without it. Of a line, and of a word in it,
/// the first 72 bytes are shown, and each byte that is not printable ASCII as `\x` and two digits. An `Err` is want of
/// memory.
pub fn advice(alloc: Global, input: &[u8], number: u32, cause: Cause) -> Result<String, NoMemory>
    ensures { IfOk result (λ text. IsAdvice input.now number cause (string_bytes text)) }
{
    let text = from_line(input, number);
    let reason = reason(alloc, input, number, text, cause)?;
    let mut told = heading(alloc, number)?;
    push_escaped(&mut told, reason.as_bytes())?;
    push_line(&mut told, first_of(text), cause)?;
    Ok(told)
}
