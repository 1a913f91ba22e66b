// Bytes of a script, and lists of its words, as they are shown to a user.
ghost use Rattle.std.specs.Prelude.{◌≡◌, ◌<◌, ◌++◌, IsTrue, OnOk, IfOk, codes, string_bytes};
ghost use Rattle.script_advice.specs.Shown.{digit, escaped, is_printable, shown, shown_byte};

use std::alloc::{AllocError, Global};

/// How many bytes of a line or of a word are shown.
pub const MOST_SHOWN: usize = 72;

// Whether a byte is printable ASCII.
fn is_printable(byte: u8) -> bool
    ensures value { result ≡ is_printable byte }
    ensures ascii { IsTrue result → byte < 128 }
{
    b' ' <= byte && byte <= b'~'
}

// The hexadecimal digit of a number below 16.
fn digit(number: u8) -> char
    requires { number < 16 }
    ensures value { result ≡ digit number }
    ensures ascii { result < 128 }
{
    if number < 10 {
        char::from(b'0' + number)
    } else {
        char::from(b'a' + (number - 10))
    }
}

// Writes a byte: itself where it is printable ASCII, and else `\x` and its two digits.
fn push_byte(text: &mut String, byte: u8) -> Result<(), AllocError>
    ensures { OnOk result (string_bytes text.new ≡ string_bytes text.old ++ shown_byte byte) }
{
    if is_printable(byte) {
        return text.push(char::from(byte));
    }
    text.push_str("\\x")?;
    text.push(digit(byte / 16))?;
    text.push(digit(byte % 16))
}

/// Writes bytes, each as it is shown.
pub fn push_escaped(text: &mut String, bytes: &[u8]) -> Result<(), AllocError>
    ensures { OnOk result (string_bytes text.new ≡ string_bytes text.old ++ escaped bytes.now) }
{
    for byte in bytes {
        push_byte(text, *byte)?;
    }
    Ok(())
}

/// Writes the first 72 bytes, and `...` where there are more.
pub fn push_shown(text: &mut String, bytes: &[u8]) -> Result<(), AllocError>
    ensures { OnOk result (string_bytes text.new ≡ string_bytes text.old ++ shown bytes.now) }
{
    if bytes.len() <= MOST_SHOWN {
        return push_escaped(text, bytes);
    }
    let (front, _) = bytes.split_at(MOST_SHOWN);
    push_escaped(text, front)?;
    text.push_str("...")
}

/// Bytes as they are shown.
pub fn unquoted(alloc: Global, bytes: &[u8]) -> Result<String, AllocError>
    ensures { IfOk result (λ text. string_bytes text ≡ shown bytes.now) }
{
    let mut text = String::new(alloc);
    push_shown(&mut text, bytes)?;
    Ok(text)
}

/// A word as it is shown, in quotes.
pub fn quoted(alloc: Global, word: &[u8]) -> Result<String, AllocError>
    ensures { IfOk result (λ text. string_bytes text ≡ codes "'" ++ shown word.now ++ codes "'") }
{
    let mut text = String::from_str(alloc, "'")?;
    push_shown(&mut text, word)?;
    text.push_str("'")?;
    Ok(text)
}

/// What stands in front of an item of so many that are listed.
pub fn gap_before(place: usize, count: usize) -> &'static str {
    if place == 0 {
        ""
    } else if place.saturating_add(1) == count {
        " or "
    } else {
        ", "
    }
}

/// Writes words with commas between them, and an `or` before the last.
pub fn push_choice(text: &mut String, words: &[&[u8]]) -> Result<(), AllocError> {
    for (place, word) in words.iter().enumerate() {
        text.push_str(gap_before(place, words.len()))?;
        push_shown(text, *word)?;
    }
    Ok(())
}

/// What is told of a line where there is no more to say.
pub fn unclear(alloc: Global) -> Result<String, AllocError> {
    String::from_str(alloc, "the line is refused")
}
