// What is told of a tap that may not stand where it does, and of a step whose tap is not there.
use crate::lines::word_at;
use crate::shown::{unclear, unquoted};
use ids_core::MOST_CENTRES;
use script_core::MOST_TAPPED;
use script_reader::{Form, Reading, object_named, shows, u8_in};
use std::alloc::{AllocError, Global};

// Whether the tap that these words set stands among those before it.
fn is_there(reading: &Reading, words: &[&[u8]]) -> bool {
    match object_named(word_at(words, 2)) {
        Some(object) => match u8_in(MOST_CENTRES, word_at(words, 1)) {
            Ok(centre) => shows(reading.taps.as_slice(), centre, &object),
            Err(_) => false,
        },
        None => false,
    }
}

/// Of a tap that comes too late, that was there before, or that is one too many.
pub fn odd_tap(alloc: Global, reading: &Reading, words: &[&[u8]]) -> Result<String, AllocError> {
    if !reading.sections.is_empty() || reading.phase.is_some() {
        return String::from_str(
            alloc,
            "'tap' comes too late; taps stand before all steps and phases",
        );
    }
    if is_there(reading, words) {
        let centre = unquoted(alloc, word_at(words, 1))?;
        let object = unquoted(alloc, word_at(words, 2))?;
        return format!(in alloc;
            "the tap of centre {centre} shows {object} already; a script says so once"
        );
    }
    let most = MOST_TAPPED;
    format!(in alloc; "a script has at most {most} lines 'tap', and this is one more")
}

/// Of a step of this form whose words are fine, where the tap is not there that it needs.
pub fn no_tap(alloc: Global, form: Form, words: &[&[u8]]) -> Result<String, AllocError> {
    match form {
        Form::Feed => {
            let centre = unquoted(alloc, word_at(words, 1))?;
            format!(in alloc;
                "centre {centre} has no tap; it has one by a line 'tap {centre} OBJECT' before all steps"
            )
        }
        Form::Look => {
            let centre = unquoted(alloc, word_at(words, 2))?;
            let object = unquoted(alloc, word_at(words, 3))?;
            format!(in alloc;
                "no tap of centre {centre} shows {object}; one does by a line 'tap {centre} {object}' before all steps"
            )
        }
        _ => unclear(alloc),
    }
}
