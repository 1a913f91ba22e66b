// The forms that a line may be meant to have, and how they are told.
use crate::shown::{gap_before, push_shown};
use script_reader::{FORMS, Form, Part, may_be, parts, spelled};
use std::alloc::{AllocError, Global};

// How many words of a line may stand where they do by a form, from the first on.
fn agreed(form: Form, words: &[&[u8]]) -> usize {
    let wanted = parts(form);
    for (place, part) in wanted.iter().enumerate() {
        if place >= words.len() || !may_be(*part, words[place]) {
            return place;
        }
    }
    wanted.len()
}

/// The place of the first word that stands there by no form.
pub fn odd_place(words: &[&[u8]]) -> usize {
    let mut place = 0;
    for form in &FORMS {
        place = place.max(agreed(*form, words));
    }
    place
}

// The fixed word that a form has at a place, where the words before it may stand where they do.
fn fixed_word(form: Form, words: &[&[u8]], place: usize) -> Option<&'static [u8]> {
    if agreed(form, words) < place {
        return None;
    }
    match parts(form).get(place) {
        Some(Part::Fixed(word)) => Some(spelled(*word)),
        _ => None,
    }
}

/// The fixed words that may stand at a place behind the words before it, each once.
pub fn fixed_words(
    alloc: Global,
    words: &[&[u8]],
    place: usize,
) -> Result<Vec<&'static [u8]>, AllocError> {
    let mut known = Vec::new(alloc);
    for form in &FORMS {
        match fixed_word(*form, words, place) {
            Some(word) if !known.contains(&word) => known.push(word)?,
            _ => {}
        }
    }
    Ok(known)
}

/// The forms whose fixed words stand in a line where they have to, as far as both go.
pub fn near_forms(alloc: Global, words: &[&[u8]]) -> Result<Vec<Form>, AllocError> {
    let mut near = Vec::new(alloc);
    for form in &FORMS {
        if agreed(*form, words) == parts(*form).len().min(words.len()) {
            near.push(*form)?;
        }
    }
    Ok(near)
}

// What stands for a part where its form is told.
fn told_part(part: Part) -> &'static [u8] {
    match part {
        Part::Fixed(word) => spelled(word),
        Part::Client | Part::Holder => b"cN",
        Part::OtherHolder => b"HOLDER",
        Part::Centre => b"CENTRE",
        Part::Other => b"OTHER",
        Part::Third => b"THIRD",
        Part::Centres => b"N",
        Part::Stable => b"K",
        Part::Count { .. } => b"NUMBER",
        Part::Commit => b"COMMIT",
        Part::Delta => b"DELTA",
        Part::Object | Part::Summand => b"OBJECT",
        Part::Bounded => b"b.NAME",
        Part::Amount => b"AMOUNT",
        Part::Key => b"KEY",
        Part::Name => b"WORD",
    }
}

// Writes a form in quotes.
fn push_form(text: &mut String, form: Form) -> Result<(), AllocError> {
    let mut gap = "'";
    for part in parts(form) {
        text.push_str(gap)?;
        push_shown(text, told_part(*part))?;
        gap = " ";
    }
    text.push_str("'")
}

/// Writes forms with commas between them, and an `or` before the last.
pub fn push_forms(text: &mut String, forms: &[Form]) -> Result<(), AllocError> {
    for (place, form) in forms.iter().enumerate() {
        text.push_str(gap_before(place, forms.len()))?;
        push_form(text, *form)?;
    }
    Ok(())
}
