// What is told of an object of another kind than a step is for.
use crate::lines::word_at;
use crate::shown::{quoted, unclear, unquoted};
use ids_core::Sort;
use script_reader::{Form, object_named};
use std::alloc::{AllocError, Global};

// The kind of objects that the step of a form changes.
fn sort_changed(form: Form) -> Option<Sort> {
    match form {
        Form::Inc => Some(Sort::Counter),
        Form::Set => Some(Sort::Register),
        Form::Add | Form::Del => Some(Sort::Set),
        Form::Put | Form::Drop => Some(Sort::Map),
        _ => None,
    }
}

// What an object of a kind is.
fn one_of(sort: Sort) -> &'static str {
    match sort {
        Sort::Counter => "a counter",
        Sort::Register => "a register",
        Sort::Set => "a set",
        Sort::Map => "a map",
    }
}

// The objects of a kind, and how one is written.
fn all_of(sort: Sort) -> &'static str {
    match sort {
        Sort::Counter => "counters (c.NAME)",
        Sort::Register => "registers (r.NAME)",
        Sort::Set => "sets (s.NAME)",
        Sort::Map => "maps (m.NAME)",
    }
}

// The steps that change an object of a kind.
fn steps_of(sort: Sort) -> &'static str {
    match sort {
        Sort::Counter => "inc",
        Sort::Register => "set",
        Sort::Set => "add and del",
        Sort::Map => "put and drop",
    }
}

// Of an object of one kind in a step for another one.
fn other_kind(
    alloc: Global,
    words: &[&[u8]],
    sort: Sort,
    changed: Sort,
) -> Result<String, AllocError> {
    let step = unquoted(alloc, word_at(words, 1))?;
    let object = quoted(alloc, word_at(words, 2))?;
    let (one, all, steps) = (one_of(sort), all_of(changed), steps_of(sort));
    format!(in alloc; "{object} is {one}, and {step} is for {all}; {one} is changed by {steps}")
}

/// Of the object in a line of this form, where it is of another kind than the step changes.
pub fn odd_kind(alloc: Global, form: Form, words: &[&[u8]]) -> Result<String, AllocError> {
    match object_named(word_at(words, 2)) {
        Some(object) => match sort_changed(form) {
            Some(changed) => other_kind(alloc, words, object.sort, changed),
            None => unclear(alloc),
        },
        None => unclear(alloc),
    }
}
