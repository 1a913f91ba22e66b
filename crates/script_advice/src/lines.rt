// The lines of an input, and the words of a line.
ghost use Rattle.std.specs.Prelude.{◌≡◌, ◌-◌, drop};
ghost use Rattle.script_core.specs.Lines.{lines_of};
ghost use Rattle.script_advice.specs.Advice.{first_of};

use script_reader::{first_line, is_blank};
use std::alloc::{AllocError, Global};

// What stands behind the first line.
fn behind_first(text: &[u8]) -> &[u8]
    ensures { lines_of result.now ≡ drop 1 (lines_of text.now) }
{
    match first_line(text) {
        Some((_, rest)) => rest,
        None => text,
    }
}

/// What an input has from the line of this number on, counted from 1.
pub fn from_line(input: &[u8], number: u32) -> &[u8]
    ensures { lines_of result.now ≡ drop (number - 1) (lines_of input.now) }
{
    let before = number.saturating_sub(1);
    let mut rest = input;
    for _line in 0..before {
        rest = behind_first(rest);
    }
    rest
}

/// The first line, without its line feed; no bytes where there is none.
pub fn first_of(text: &[u8]) -> &[u8]
    ensures { result.now ≡ first_of (lines_of text.now) }
{
    match first_line(text) {
        Some((line, _)) => line,
        None => b"",
    }
}

/// The words of a line: what stands between its spaces and tabs.
pub fn words_in<'a>(alloc: Global, line: &'a [u8]) -> Result<Vec<&'a [u8]>, AllocError> {
    line.split(|byte| is_blank(*byte))
        .filter(|word| !word.is_empty())
        .collect(alloc)
}

/// The word at a place, or no bytes where there is none.
pub fn word_at<'a>(words: &[&'a [u8]], place: usize) -> &'a [u8] {
    if place < words.len() {
        words[place]
    } else {
        b""
    }
}
