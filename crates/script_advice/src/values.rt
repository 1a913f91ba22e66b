// What is told of a word that has to be a number, a name or an object, and is none or not one of those that may stand
// there.
use crate::lines::word_at;
use crate::shown::{push_shown, quoted, unquoted};
use crate::taps::no_tap;
use ids_core::{MOST_CENTRES, MOST_DELTA, MOST_NUMBER};
use obj_bounded::MOST_BOUNDED_NAME;
use script_core::Header;
use script_reader::{
    Cause, Form, Part, Said, are_digits, holders_of, object_named, parts, said_word, u8_in,
};
use std::alloc::{AllocError, Global};

/// What a name is.
const A_NAME: &str = "1 to 32 bytes out of a to z, 0 to 9 and _";

/// The most digits of a number.
const MOST_DIGITS: usize = 19;

// The first word of a line that is refused in its place, what it has to be there, and why it is refused.
#[derive(Clone, Copy)]
struct Blamed<'a> {
    part: Part,
    word: &'a [u8],
    why: Cause,
}

// The first word that is refused of a line of this form, behind this header or before one.
fn first_refused<'a>(header: Option<Header>, form: Form, words: &[&'a [u8]]) -> Option<Blamed<'a>> {
    let mut said = Said::nothing();
    for (place, part) in parts(form).iter().enumerate() {
        let word = word_at(words, place);
        match said_word(header, *part, word, said) {
            Ok(more) => said = more,
            Err(why) => {
                return Some(Blamed {
                    part: *part,
                    word,
                    why,
                });
            }
        }
    }
    None
}

// Which clients a script has.
fn clients_told(alloc: Global, clients: u32) -> Result<String, AllocError> {
    if clients == 1 {
        String::from_str(alloc, "client c1 alone")
    } else {
        format!(in alloc; "clients c1 to c{clients}")
    }
}

// Which centres a script has.
fn centres_told(alloc: Global, centres: u8) -> Result<String, AllocError> {
    if centres == 1 {
        String::from_str(alloc, "centre 1 alone")
    } else {
        format!(in alloc; "centres 1 to {centres}")
    }
}

// That a number was expected, from a least to a most.
fn number_wanted(alloc: Global, least: u64, most: u64) -> Result<String, AllocError> {
    format!(in alloc; "expected a number from {least} to {most}")
}

// That one of the centres was expected.
fn centre_wanted(alloc: Global, header: Option<Header>) -> Result<String, AllocError> {
    match header {
        Some(header) => {
            let centres = centres_told(alloc, header.n)?;
            format!(in alloc; "this script has {centres}")
        }
        None => String::from_str(alloc, "expected the number of a centre"),
    }
}

// That one of the clients was expected.
fn client_wanted(alloc: Global, header: Option<Header>) -> Result<String, AllocError> {
    match header {
        Some(header) => {
            let clients = clients_told(alloc, header.clients)?;
            format!(in alloc; "this script has {clients}")
        }
        None => String::from_str(alloc, "expected a client, as c1"),
    }
}

// Which clients hold bounded counters in a script.
fn holders_told(alloc: Global, header: Header) -> Result<String, AllocError> {
    let holders = clients_told(alloc, u32::from(holders_of(header.clients)))?;
    format!(in alloc; "a bounded counter is held by {holders}")
}

// That one of the holders of bounded counters was expected.
fn holder_wanted(alloc: Global, header: Option<Header>) -> Result<String, AllocError> {
    match header {
        Some(header) => holders_told(alloc, header),
        None => String::from_str(alloc, "expected one of the clients"),
    }
}

// That one of as many centres was expected as the second word says.
fn share_wanted(alloc: Global, words: &[&[u8]]) -> Result<String, AllocError> {
    let centres = unquoted(alloc, word_at(words, 1))?;
    format!(in alloc; "expected a number from 1 to {centres}, the number of centres")
}

// That a delta was expected.
fn delta_wanted(alloc: Global) -> Result<String, AllocError> {
    let most = MOST_DELTA;
    format!(in alloc; "expected a number from -{most} to {most}")
}

// That an object was expected.
fn object_wanted(alloc: Global) -> Result<String, AllocError> {
    let name = A_NAME;
    format!(in alloc; "expected c.NAME, r.NAME, s.NAME or m.NAME, with a NAME of {name}")
}

// That a bounded counter was expected.
fn bounded_wanted(alloc: Global) -> Result<String, AllocError> {
    let most = MOST_BOUNDED_NAME;
    format!(in alloc;
        "expected b.NAME, with a NAME of 1 to {most} bytes out of a to z, 0 to 9 and _"
    )
}

// That a name was expected.
fn name_wanted(alloc: Global) -> Result<String, AllocError> {
    let name = A_NAME;
    format!(in alloc; "expected {name}")
}

// What was expected in the place of a part, in a line with these words.
fn wanted(
    alloc: Global,
    header: Option<Header>,
    words: &[&[u8]],
    part: Part,
) -> Result<String, AllocError> {
    match part {
        Part::Client => client_wanted(alloc, header),
        Part::Holder | Part::OtherHolder => holder_wanted(alloc, header),
        Part::Centre | Part::Other | Part::Third => centre_wanted(alloc, header),
        Part::Centres => number_wanted(alloc, 1, u64::from(MOST_CENTRES)),
        Part::Stable => share_wanted(alloc, words),
        Part::Count { least, most } => number_wanted(alloc, u64::from(least), u64::from(most)),
        Part::Commit => number_wanted(alloc, 1, MOST_NUMBER),
        Part::Delta => delta_wanted(alloc),
        Part::Object | Part::Summand => object_wanted(alloc),
        Part::Bounded => bounded_wanted(alloc),
        Part::Amount => number_wanted(alloc, 1, MOST_DELTA),
        Part::Key | Part::Name | Part::Fixed(_) => name_wanted(alloc),
    }
}

// What has to be digits in a word that has to be a number: all of it, but for the `c` of a client and the minus of a
// delta.
fn digits_of(part: Part, word: &[u8]) -> &[u8] {
    let has_mark = match part {
        Part::Client | Part::Holder => true,
        Part::Delta => !word.is_empty() && word[0] == b'-',
        _ => false,
    };
    if has_mark && !word.is_empty() {
        &word[1..]
    } else {
        word
    }
}

// Why digits are not written as a number is, where there is more to say of them.
fn flaw(digits: &[u8]) -> &'static str {
    if !are_digits(digits) {
        ""
    } else if digits.len() > MOST_DIGITS {
        ": it has more than 19 digits"
    } else if digits.len() > 1 && digits[0] == b'0' {
        ": a zero stands in front"
    } else if digits.len() == 1 {
        ": 0 has no minus"
    } else {
        ""
    }
}

// Of a word that is not written as a number is.
fn no_number(
    alloc: Global,
    header: Option<Header>,
    words: &[&[u8]],
    blame: Blamed<'_>,
) -> Result<String, AllocError> {
    let word = quoted(alloc, blame.word)?;
    let noun = if matches!(blame.part, Part::Client | Part::Holder) {
        "client"
    } else {
        "number"
    };
    let flaw = flaw(digits_of(blame.part, blame.word));
    let wanted = wanted(alloc, header, words, blame.part)?;
    format!(in alloc; "{word} is no {noun}{flaw}; {wanted}")
}

// Of a client that the script does not have.
fn no_client(alloc: Global, header: Header, word: &[u8]) -> Result<String, AllocError> {
    let word = quoted(alloc, word)?;
    let clients = clients_told(alloc, header.clients)?;
    format!(in alloc; "{word} is no client of this script; it has {clients}")
}

// Of a client that holds no bounded counters, or of no such number.
fn no_holder(alloc: Global, header: Header, word: &[u8]) -> Result<String, AllocError> {
    let word = quoted(alloc, word)?;
    let holders = holders_told(alloc, header)?;
    format!(in alloc; "{word} is no holder; {holders}")
}

// Of a holder that is the one before.
fn same_holder(
    alloc: Global,
    header: Header,
    words: &[&[u8]],
    word: &[u8],
) -> Result<String, AllocError> {
    let word = quoted(alloc, word)?;
    let other = unquoted(alloc, word_at(words, 0))?;
    let holders = holders_told(alloc, header)?;
    format!(in alloc; "{word} is {other} itself; expected another holder, and {holders}")
}

// Of a centre that the script does not have.
fn no_centre(alloc: Global, header: Header, word: &[u8]) -> Result<String, AllocError> {
    let word = quoted(alloc, word)?;
    let centres = centres_told(alloc, header.n)?;
    format!(in alloc; "{word} is no centre of this script; it has {centres}")
}

// The centres that stand in a line before another one.
fn others_told(alloc: Global, words: &[&[u8]], part: Part) -> Result<String, AllocError> {
    let mut others = unquoted(alloc, word_at(words, 1))?;
    if matches!(part, Part::Third) {
        others.push_str(" and ")?;
        push_shown(&mut others, word_at(words, 2))?;
    }
    Ok(others)
}

// Of a centre that stands in the line before.
fn same_centre(
    alloc: Global,
    header: Header,
    words: &[&[u8]],
    blame: Blamed<'_>,
) -> Result<String, AllocError> {
    let word = quoted(alloc, blame.word)?;
    let others = others_told(alloc, words, blame.part)?;
    let centres = centres_told(alloc, header.n)?;
    format!(in alloc;
        "{word} is named twice; expected another centre than {others}, and this script has {centres}"
    )
}

// Of any other number that is outside its range.
fn beyond(
    alloc: Global,
    header: Option<Header>,
    words: &[&[u8]],
    blame: Blamed<'_>,
) -> Result<String, AllocError> {
    let word = quoted(alloc, blame.word)?;
    let wanted = wanted(alloc, header, words, blame.part)?;
    format!(in alloc; "{word} is out of range; {wanted}")
}

// Of a number that is outside its range, behind this header.
fn out_of_script(
    alloc: Global,
    header: Header,
    words: &[&[u8]],
    blame: Blamed<'_>,
) -> Result<String, AllocError> {
    match blame.part {
        Part::Client => no_client(alloc, header, blame.word),
        Part::Holder => no_holder(alloc, header, blame.word),
        Part::OtherHolder => match u8_in(holders_of(header.clients), blame.word) {
            Ok(_) => same_holder(alloc, header, words, blame.word),
            Err(_) => no_holder(alloc, header, blame.word),
        },
        Part::Centre => no_centre(alloc, header, blame.word),
        Part::Other | Part::Third => match u8_in(header.n, blame.word) {
            Ok(_) => same_centre(alloc, header, words, blame),
            Err(_) => no_centre(alloc, header, blame.word),
        },
        _ => beyond(alloc, Some(header), words, blame),
    }
}

// Of a number that is outside its range.
fn out_of_range(
    alloc: Global,
    header: Option<Header>,
    words: &[&[u8]],
    blame: Blamed<'_>,
) -> Result<String, AllocError> {
    match header {
        Some(header) => out_of_script(alloc, header, words, blame),
        None => beyond(alloc, header, words, blame),
    }
}

// Whether a word names an object to which nothing may be added.
fn is_cell(blame: Blamed<'_>) -> bool {
    matches!(blame.part, Part::Summand) && object_named(blame.word).is_some()
}

// Of a counter to which nothing may be added.
fn a_cell(alloc: Global, word: &[u8]) -> Result<String, AllocError> {
    let word = quoted(alloc, word)?;
    format!(in alloc;
        "{word} may be a cell of a bounded counter; expected a counter whose name does not begin with bc_"
    )
}

// Of a word that is no name, and of one that names nothing.
fn no_name(
    alloc: Global,
    header: Option<Header>,
    words: &[&[u8]],
    blame: Blamed<'_>,
) -> Result<String, AllocError> {
    let word = quoted(alloc, blame.word)?;
    let noun = match blame.part {
        Part::Object | Part::Summand => "object",
        Part::Bounded => "bounded counter",
        Part::Key => "key",
        _ => "name",
    };
    let wanted = wanted(alloc, header, words, blame.part)?;
    format!(in alloc; "{word} is no {noun}; {wanted}")
}

/// Of the first word of a line of this form that is refused in its place, or of the tap that the line lacks.
pub fn odd_value(
    alloc: Global,
    header: Option<Header>,
    form: Form,
    words: &[&[u8]],
) -> Result<String, AllocError> {
    match first_refused(header, form, words) {
        Some(blame) => match blame.why {
            Cause::Number => no_number(alloc, header, words, blame),
            Cause::Range => out_of_range(alloc, header, words, blame),
            _ if is_cell(blame) => a_cell(alloc, blame.word),
            _ => no_name(alloc, header, words, blame),
        },
        None => no_tap(alloc, form, words),
    }
}
