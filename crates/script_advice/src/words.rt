// What is told of a word that no line has in its place, and of too few or too many words.
use crate::forms::{fixed_words, near_forms, odd_place, push_forms};
use crate::lines::word_at;
use crate::near::nearest;
use crate::shown::{push_choice, push_shown, quoted};
use script_reader::{Form, parts};
use std::alloc::{AllocError, Global};

/// A client, in front of its step.
const A_CLIENT: &[u8] = b"c1";

/// How many forms are told at most; where there are more, the words are that tell them apart.
const MOST_FORMS: usize = 6;

// Whether a word is among others.
fn is_among(known: &[&[u8]], word: &[u8]) -> bool {
    known.iter().any(|one| *one == word)
}

// That a word may not stand at a place.
fn blame(alloc: Global, word: &[u8], place: usize) -> Result<String, AllocError> {
    let word = quoted(alloc, word)?;
    match place {
        0 => format!(in alloc; "no line begins with {word}"),
        1 => format!(in alloc; "no step begins with {word}"),
        _ => format!(in alloc; "{word} may not stand here"),
    }
}

// Whether the client was left out in front of a step.
fn lacks_client(alloc: Global, word: &[u8], place: usize) -> Result<bool, AllocError> {
    let steps = fixed_words(alloc, &[A_CLIENT], 1)?;
    Ok(place == 0 && is_among(&steps, word))
}

// Whether a line begins with the word that stands behind a client.
fn needs_no_client(alloc: Global, word: &[u8], place: usize) -> Result<bool, AllocError> {
    let beginnings = fixed_words(alloc, &[], 0)?;
    Ok(place == 1 && is_among(&beginnings, word))
}

// Writes which words may stand at a place.
fn push_expected(text: &mut String, known: &[&[u8]], place: usize) -> Result<(), AllocError> {
    if place == 0 {
        text.push_str("; expected a client (c1, c2 ..), ")?;
    } else {
        text.push_str("; expected ")?;
    }
    push_choice(text, known)
}

// Writes the word of these that was meant, or else all of them.
fn push_meant(
    alloc: Global,
    text: &mut String,
    known: &[&'static [u8]],
    word: &[u8],
    place: usize,
) -> Result<(), AllocError> {
    match nearest(alloc, word, known)? {
        Some(near) => {
            text.push_str("; did you mean '")?;
            push_shown(text, near)?;
            text.push_str("'?")
        }
        None => push_expected(text, known, place),
    }
}

/// Of the first word that no line has in its place, behind those before it.
pub fn odd_word(alloc: Global, words: &[&[u8]]) -> Result<String, AllocError> {
    let place = odd_place(words);
    let word = word_at(words, place);
    let mut text = blame(alloc, word, place)?;
    if lacks_client(alloc, word, place)? {
        text.push_str("; the client comes first, as in 'c1 ")?;
        push_shown(&mut text, word)?;
        text.push_str("'")?;
    } else if needs_no_client(alloc, word, place)? {
        text.push_str("; write it without the client")?;
    } else {
        let known = fixed_words(alloc, words, place)?;
        push_meant(alloc, &mut text, &known, word, place)?;
    }
    Ok(text)
}

// Whether a word begins as a comment does.
fn is_comment(word: &[u8]) -> bool {
    !word.is_empty() && word[0] == b'#'
}

// Writes the forms that were meant, or where there are many the words by which they go on.
fn push_wanted(
    alloc: Global,
    text: &mut String,
    words: &[&[u8]],
    near: &[Form],
) -> Result<(), AllocError> {
    if near.len() <= MOST_FORMS {
        return push_forms(text, near);
    }
    let known = fixed_words(alloc, words, words.len())?;
    text.push_str("a step of the client: ")?;
    push_choice(text, &known)
}

/// Of a line with too few or too many words.
pub fn odd_count(alloc: Global, words: &[&[u8]]) -> Result<String, AllocError> {
    let near = near_forms(alloc, words)?;
    let are_few = near.iter().all(|form| words.len() < parts(*form).len());
    let amount = if are_few { "few" } else { "many" };
    let mut text = format!(in alloc; "too {amount} words; expected ")?;
    push_wanted(alloc, &mut text, words, &near)?;
    if words.iter().any(|word| is_comment(*word)) {
        text.push_str("; a comment stands in a line of its own")?;
    }
    Ok(text)
}
