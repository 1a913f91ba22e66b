// What is told of a line that may not stand where it does, and of an input that ends too early.
use crate::before::Before;
use crate::lines::word_at;
use crate::shown::quoted;
use crate::taps::odd_tap;
use script_reader::{Form, Reading};
use std::alloc::{AllocError, Global};

// The line of the header that has to come next, where it is not complete.
fn next_of_header(reading: &Reading) -> &'static str {
    if reading.centres.is_none() {
        "'centres N k K'"
    } else {
        "'clients NUMBER'"
    }
}

/// Of an input that ends before its header is complete, or in a phase.
pub fn early_end(alloc: Global, before: &Before) -> Result<String, AllocError> {
    if before.reading.phase.is_some() {
        let line = before.phase_line;
        return format!(in alloc;
            "the input ends in a phase; expected 'end' for the 'phase' of line {line}"
        );
    }
    let next = next_of_header(&before.reading);
    format!(in alloc; "the input ends before its header is complete; expected {next}")
}

// Whether a line of this form is a setting.
fn is_setting(form: Form) -> bool {
    matches!(
        form,
        Form::Cache | Form::Limit | Form::Threads | Form::Rounds
    )
}

// Whether a setting of this form was read.
fn is_set(reading: &Reading, form: Form) -> bool {
    match form {
        Form::Cache => reading.cache.is_some(),
        Form::Limit => reading.limit.is_some(),
        Form::Threads => reading.threads.is_some(),
        Form::Rounds => reading.rounds.is_some(),
        _ => false,
    }
}

// Of a line of the header that was there before, or comes too early.
fn odd_header(alloc: Global, reading: &Reading, form: Form) -> Result<String, AllocError> {
    match form {
        Form::Clients if reading.centres.is_none() => {
            let next = next_of_header(reading);
            format!(in alloc; "the line 'clients' comes second; expected {next} first")
        }
        Form::Clients => String::from_str(alloc, "a script has the line 'clients' once"),
        _ => String::from_str(alloc, "a script has the line 'centres' once"),
    }
}

// Of a line that stands before the header is complete.
fn early_line(alloc: Global, reading: &Reading, form: Form) -> Result<String, AllocError> {
    let noun = match form {
        Form::Tap => "a tap",
        Form::Phase => "a phase",
        _ if is_setting(form) => "a setting",
        _ => "a step",
    };
    let next = next_of_header(reading);
    format!(in alloc; "{noun} may not stand before the header is complete; expected {next}")
}

// Of a setting that was there before, or comes too late.
fn odd_setting(
    alloc: Global,
    reading: &Reading,
    form: Form,
    first: &str,
) -> Result<String, AllocError> {
    if is_set(reading, form) {
        format!(in alloc; "{first} is set already; a script sets it once")
    } else {
        format!(in alloc; "{first} comes too late; settings stand before all steps and phases")
    }
}

// Of a line that may not stand in the phase that is open.
fn odd_in_phase(alloc: Global, before: &Before, first: &str) -> Result<String, AllocError> {
    let line = before.phase_line;
    format!(in alloc;
        "{first} may not stand in a phase; expected 'end' for the 'phase' of line {line} first"
    )
}

/// Of a line of this form that may not stand where it does.
pub fn odd_place_of(
    alloc: Global,
    before: &Before,
    form: Form,
    words: &[&[u8]],
) -> Result<String, AllocError> {
    let first = quoted(alloc, word_at(words, 0))?;
    let reading = &before.reading;
    match form {
        Form::Centres | Form::Clients => odd_header(alloc, reading, form),
        Form::End => String::from_str(
            alloc,
            "no phase is open; 'end' belongs to a 'phase' before it",
        ),
        _ if reading.header().is_none() => early_line(alloc, reading, form),
        _ if is_setting(form) => odd_setting(alloc, reading, form, first.as_str()),
        Form::Tap => odd_tap(alloc, reading, words),
        _ => odd_in_phase(alloc, before, first.as_str()),
    }
}
