// Many operations on one set. `words COUNT` adds so many words and removes all but the first again,
// `tags COUNT` adds one word so many times; the number is what is left.
ghost use Rattle.std.specs.Prelude.{◌≡◌, true, false, [], ◌∷◌, OnOk};
ghost use Rattle.obj_set.specs.Sets.{step};
ghost use Rattle.benchmarks.specs.Marks.{mark_of};

use crate::fault::Fault;
use ids_core::{BadName, Dot, Kind, Mark, Name, NoMemory, OpId, Tags};
use obj_set::SetState;
use std::alloc::Global;

// How many words of four letters there are.
const WORDS: u32 = 456_976;

// The mark of an operation: that of the transaction with this number of client 1.
fn mark_of(number: u64) -> Mark
    ensures { result ≡ mark_of number }
{
    let dot = Dot { client: 1, number };
    Mark {
        rank: number,
        id: OpId { dot, place: 0 },
    }
}

// Adds a word under its number, over nothing.
fn add_word(alloc: Global, state: &mut SetState, number: u64, word: &Name) -> Result<(), NoMemory>
    ensures { OnOk result (state.new ≡ step state.old (mark_of number, record { adds = true; word = word.now; over = [] })) }
{
    match Tags::of(Vec::new(alloc)) {
        Ok(over) => state.change(&mark_of(number), true, word, &over),
        Err(_list) => unreachable!(),
    }
}

// Removes a word under its number, over the add of another number.
fn remove_word(
    alloc: Global,
    state: &mut SetState,
    number: u64,
    word: &Name,
    seen: u64,
) -> Result<(), NoMemory>
    ensures { OnOk result (state.new ≡ step state.old (mark_of number, record { adds = false; word = word.now; over = (mark_of seen).id ∷ [] })) }
{
    let mut list = Vec::new(alloc);
    list.push(mark_of(seen).id)?;
    match Tags::of(list) {
        Ok(over) => state.change(&mark_of(number), false, word, &over),
        Err(_list) => unreachable!(),
    }
}

// The letter of a word that stands for the lowest digit of a number to the base 26.
fn letter(number: u32) -> u8 {
    b'a' + (number % 26) as u8
}

/// A word of four letters, another one for each number below `WORDS`, in no order.
pub fn word_of(number: u32) -> Result<Name, BadName> {
    let mixed = (u64::from(number) * 7_919 % u64::from(WORDS)) as u32;
    Name::read(&[
        letter(mixed),
        letter(mixed / 26),
        letter(mixed / 676),
        letter(mixed / 17_576),
    ])
}

/// What is left, for the form and the count; nothing where they are of no form.
pub fn worked(alloc: Global, form: &str, count: &str) -> Option<Result<i128, Fault>> {
    let Ok(count) = count.parse::<u32>() else {
        return None;
    };
    match form {
        "words" => Some(words_left(alloc, count)),
        "tags" => Some(tags_left(alloc, count)),
        _ => None,
    }
}

// Adds so many words, and removes them all but the first: how many words are left.
fn words_left(alloc: Global, count: u32) -> Result<i128, Fault> {
    let mut state = SetState::empty(alloc)?;
    for number in 0..count {
        add_word(alloc, &mut state, u64::from(number), &word_of(number)?)?;
    }
    for number in 1..count {
        let seen = u64::from(number);
        let own = u64::from(count) + seen;
        remove_word(alloc, &mut state, own, &word_of(number)?, seen)?;
    }
    Ok(state.value(alloc)?.len() as i128)
}

// Adds one word so many times: how many of its adds are live.
fn tags_left(alloc: Global, count: u32) -> Result<i128, Fault> {
    let mut state = SetState::empty(alloc)?;
    let word = word_of(0)?;
    for number in 0..count {
        add_word(alloc, &mut state, u64::from(number), &word)?;
    }
    Ok(state.tags_of(alloc, &word)?.as_slice().len() as i128)
}
