// The form of the words of a line.
ghost use Rattle.std.specs.Prelude.{◌≡◌, length, IfOk, IfSome};
ghost use Rattle.script_reader.specs.Fits.{is_near, is_whole};
ghost use Rattle.script_reader.specs.Forms.{agrees, fits, form_among, form_of, is_client_word, may_be, parts_of};
ghost use Rattle.script_reader.specs.Words.{texts_of, words_of};

use crate::fault::Cause;
use crate::form::{FORMS, Form, Part, parts, spelled};
use crate::leads::{client_forms, first_letter, form_of_verb, forms_from};
use crate::numbers::are_digits;
use crate::words::{MOST_WORDS, cut_words};

// How the words of a line stand to a form.
#[derive(Clone, Copy)]
enum Fit {
    // Its fixed words stand in their places, and there are as many words.
    Whole,
    // Its fixed words stand in their places as far as there are words, and there are more or fewer.
    Off,
    // Another word stands in the place of a fixed one.
    Not,
}

fn is_client_word(text: &[u8]) -> bool
    ensures { result ≡ is_client_word text.now }
{
    !text.is_empty() && text[0] == b'c' && text.len() > 1 && are_digits(&text[1..])
}

/// Whether a word may stand in the place of a part, whatever it says there.
pub fn may_be(part: Part, text: &[u8]) -> bool
    ensures { result ≡ may_be part text.now }
{
    match part {
        Part::Fixed(own) => text == spelled(own),
        Part::Client | Part::Holder => is_client_word(text),
        _ => true,
    }
}

// How words stand to these parts.
#[tactic(auto, using(crate::proofs::Fitting::agrees_none))]
fn fit_of(parts: &[Part], words: &[&[u8]]) -> Fit
    ensures whole { is_whole result ≡ fits parts.now (texts_of words.now) }
    ensures near { is_near result ≡ agrees parts.now (texts_of words.now) }
{
    let mut rest = words;
    for part in parts {
        match rest {
            [word, others @ ..] => {
                if !may_be(*part, word) {
                    return Fit::Not;
                }
                rest = others;
            }
            [] => return Fit::Off,
        }
    }
    if rest.is_empty() {
        Fit::Whole
    } else {
        Fit::Off
    }
}

// The one of these forms that words have; or why they have none.
fn form_among(forms: &[Form], words: &[&[u8]]) -> Result<Form, Cause>
    ensures { result ≡ form_among forms.now (texts_of words.now) }
{
    let mut why = Cause::Word;
    for form in forms {
        match fit_of(parts(*form), words) {
            Fit::Whole => return Ok(*form),
            Fit::Off => why = Cause::Count,
            Fit::Not => {}
        }
    }
    Err(why)
}

// The forms that words may have: no other form has its fixed words in their places.
fn near_forms(words: &[&[u8]]) -> &'static [Form]
    ensures { form_among result.now (texts_of words.now) ≡ form_of (texts_of words.now) }
{
    match words {
        [first, others @ ..] => {
            if !is_client_word(first) {
                return forms_from(first_letter(first));
            }
            match others {
                [verb, ..] => client_forms(first_letter(verb)),
                [] => &FORMS,
            }
        }
        [] => &FORMS,
    }
}

// The form of the words of a client's step, where the word behind the client tells it, or why they have none; nothing
// where the other words have a say.
fn form_by_verb(words: &[&[u8]]) -> Option<Result<Form, Cause>>
    ensures { IfSome result (λ found. found ≡ form_of (texts_of words.now)) }
{
    match words {
        [first, verb, ..] => {
            if !is_client_word(first) {
                return None;
            }
            let form = form_of_verb(verb)?;
            if parts(form).len() == words.len() {
                Some(Ok(form))
            } else {
                Some(Err(Cause::Count))
            }
        }
        _ => None,
    }
}

/// The form of words; or why they have none.
pub fn form_in(words: &[&[u8]]) -> Result<Form, Cause>
    ensures form { result ≡ form_of (texts_of words.now) }
    ensures count { IfOk result (λ one. length words.now ≡ length (parts_of one)) }
{
    match form_by_verb(words) {
        Some(found) => found,
        None => form_among(near_forms(words), words),
    }
}

/// The form of the words of a text; or why they have none.
#[tactic(auto, using(crate::proofs::FirstWords::form_of_first))]
pub fn form_of(text: &[u8]) -> Result<Form, Cause>
    ensures { result ≡ form_of (words_of text.now) }
{
    let none: &[u8] = b"";
    let mut places = [none; MOST_WORDS];
    let count = cut_words(text, &mut places);
    form_in(&places[..count])
}
