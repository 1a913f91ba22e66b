// What the words of a line say.
ghost use Rattle.std.specs.Prelude.{◌≡◌, drop, codes, if◌then◌else◌};
ghost use Rattle.obj_bounded.specs.CellNames.{counter_of};
ghost use Rattle.script_reader.specs.Numbers.{is_number};
ghost use Rattle.script_reader.specs.Said.{said_word, said_words, unsaid};
ghost use Rattle.script_reader.specs.Saying.{said_behind};
ghost use Rattle.script_reader.specs.Words.{texts_of};

use crate::fault::Cause;
use crate::form::Part;
use crate::names::{name_said, object_named};
use crate::numbers::{delta_in, is_number, number_in, u8_in, u32_in};
use crate::shares::{bounded_in, holders_of, summand_in};
use ids_core::{MOST_CENTRES, MOST_DELTA, MOST_NUMBER, Name, ObjectId, Sort};
use script_core::{Header, Share};

/// What the words of a line say, each in its place. What no word says stands as it does before a line.
#[derive(Clone, Copy)]
pub struct Said {
    pub client: u32,
    pub share: Share,
    pub to: u8,
    pub centre: u8,
    pub other: u8,
    pub third: u8,
    pub n: u8,
    pub k: u8,
    pub count: u32,
    pub number: u64,
    pub amount: u64,
    pub delta: i64,
    pub object: ObjectId,
    pub summand: ObjectId,
    pub key: Name,
    pub word: Name,
}

impl Said {
    /// No word was said.
    pub fn nothing() -> Self
        ensures { result ≡ unsaid }
    {
        let name = a_name();
        Said {
            client: 1,
            share: Share {
                name,
                holder: 1,
                holders: 1,
            },
            to: 0,
            centre: 1,
            other: 0,
            third: 0,
            n: 1,
            k: 1,
            count: 1,
            number: 1,
            amount: 1,
            delta: 0,
            object: a_counter(),
            summand: a_counter(),
            key: name,
            word: name,
        }
    }
}

// A name.
fn a_name() -> Name
    ensures { result ≡ codes "a" }
{
    match Name::read(b"a") {
        Ok(name) => name,
        Err(_) => unreachable!(),
    }
}

// A counter.
fn a_counter() -> ObjectId
    ensures { result ≡ counter_of (codes "a") }
{
    ObjectId {
        sort: Sort::Counter,
        name: a_name(),
    }
}

// A word that has to be a number, before a header that gives its range.
fn early(text: &[u8]) -> Result<(), Cause>
    ensures { result ≡ (if is_number text.now then Ok tt else Err Cause.Number) }
{
    if is_number(text) {
        Ok(())
    } else {
        Err(Cause::Number)
    }
}

/// What is said when a word stands in the place of a part, behind the words before it; or why it may not.
pub fn said_word(header: Option<Header>, part: Part, text: &[u8], said: Said) -> Result<Said, Cause>
    ensures { result ≡ said_word header part text.now said }
{
    let mut said = said;
    match say(header, part, text, &mut said) {
        Ok(()) => Ok(said),
        Err(why) => Err(why),
    }
}

// Takes what a word says in the place of a part.
#[tactic(auto, unfolding(crate::specs::Said::said_word))]
fn say(header: Option<Header>, part: Part, text: &[u8], said: &mut Said) -> Result<(), Cause>
    ensures { said_behind result said.new ≡ said_word header part text.now said.old }
{
    match part {
        Part::Fixed(_) => {}
        Part::Client => say_client(header, text, said)?,
        Part::Holder => say_holder(header, text, said)?,
        Part::OtherHolder => say_to(header, text, said)?,
        Part::Centre => say_centre(header, text, said)?,
        Part::Other => say_other(header, text, said)?,
        Part::Third => say_third(header, text, said)?,
        Part::Centres => {
            said.n = u8_in(MOST_CENTRES, text)?;
            said.k = 1;
        }
        Part::Stable => said.k = u8_in(said.n, text)?,
        Part::Count { least, most } => said.count = u32_in(least, most, text)?,
        Part::Commit => said.number = number_in(1, MOST_NUMBER, text)?,
        Part::Delta => said.delta = delta_in(text)?,
        Part::Object => match object_named(text) {
            Some(object) => said.object = object,
            None => return Err(Cause::Name),
        },
        Part::Summand => said.summand = summand_in(text)?,
        Part::Bounded => said.share.name = bounded_in(text)?,
        Part::Amount => said.amount = number_in(1, MOST_DELTA, text)?,
        Part::Key => said.key = name_said(text)?,
        Part::Name => said.word = name_said(text)?,
    }
    Ok(())
}

// Takes the client whose number stands behind the first letter.
#[tactic(auto, unfolding(crate::specs::Said::said_word))]
fn say_client(header: Option<Header>, text: &[u8], said: &mut Said) -> Result<(), Cause>
    ensures { said_behind result said.new ≡ said_word header Part.Client text.now said.old }
{
    let digits = behind_first(text);
    match header {
        Some(header) => said.client = u32_in(1, header.clients, digits)?,
        None => early(digits)?,
    }
    Ok(())
}

// Takes the client whose number stands behind the first letter, as a holder of bounded counters.
#[tactic(auto, unfolding(crate::specs::Said::said_word))]
fn say_holder(header: Option<Header>, text: &[u8], said: &mut Said) -> Result<(), Cause>
    ensures { said_behind result said.new ≡ said_word header Part.Holder text.now said.old }
{
    let number = behind_first(text);
    match header {
        Some(header) => {
            let holders = holders_of(header.clients);
            let holder = u8_in(holders, number)?;
            said.client = u32::from(holder);
            said.share.holder = holder;
            said.share.holders = holders;
        }
        None => early(number)?,
    }
    Ok(())
}

// Takes the holder of a number, which is another one than the client.
#[tactic(auto, unfolding(crate::specs::Said::said_word))]
fn say_to(header: Option<Header>, text: &[u8], said: &mut Said) -> Result<(), Cause>
    ensures { said_behind result said.new ≡ said_word header Part.OtherHolder text.now said.old }
{
    match header {
        Some(_) => {
            let to = u8_in(said.share.holders, text)?;
            if to == said.share.holder {
                return Err(Cause::Range);
            }
            said.to = to;
        }
        None => early(text)?,
    }
    Ok(())
}

/// What stands behind the first byte.
pub fn behind_first(text: &[u8]) -> &[u8]
    ensures { result.now ≡ drop 1 text.now }
{
    if text.is_empty() {
        text
    } else {
        let (_, rest) = text.split_at(1);
        rest
    }
}

// Takes the centre of a number.
#[tactic(auto, unfolding(crate::specs::Said::said_word))]
fn say_centre(header: Option<Header>, text: &[u8], said: &mut Said) -> Result<(), Cause>
    ensures { said_behind result said.new ≡ said_word header Part.Centre text.now said.old }
{
    match header {
        Some(header) => said.centre = u8_in(header.n, text)?,
        None => early(text)?,
    }
    Ok(())
}

// Takes the centre of a number, which is another one than the centre before.
#[tactic(auto, unfolding(crate::specs::Said::said_word))]
fn say_other(header: Option<Header>, text: &[u8], said: &mut Said) -> Result<(), Cause>
    ensures { said_behind result said.new ≡ said_word header Part.Other text.now said.old }
{
    match header {
        Some(header) => {
            let other = u8_in(header.n, text)?;
            if other == said.centre {
                return Err(Cause::Range);
            }
            said.other = other;
        }
        None => early(text)?,
    }
    Ok(())
}

// Takes the centre of a number, which is another one than the two centres before.
#[tactic(auto, unfolding(crate::specs::Said::said_word))]
fn say_third(header: Option<Header>, text: &[u8], said: &mut Said) -> Result<(), Cause>
    ensures { said_behind result said.new ≡ said_word header Part.Third text.now said.old }
{
    match header {
        Some(header) => {
            let third = u8_in(header.n, text)?;
            if third == said.centre || third == said.other {
                return Err(Cause::Range);
            }
            said.third = third;
        }
        None => early(text)?,
    }
    Ok(())
}

/// Takes what words say in the places of these parts, up to the first that may not.
#[tactic(auto, using(crate::proofs::Saying::said_none))]
pub fn say_all(
    header: Option<Header>,
    parts: &[Part],
    words: &[&[u8]],
    said: &mut Said,
) -> Result<(), Cause>
    ensures { said_behind result said.new ≡ said_words header parts.now (texts_of words.now) said.old }
{
    let mut rest = words;
    for part in parts {
        match rest {
            [word, others @ ..] => {
                say(header, *part, word, said)?;
                rest = others;
            }
            [] => return Ok(()),
        }
    }
    Ok(())
}
