// Numbers and deltas, as a script spells them.
ghost use Rattle.std.specs.Prelude.{◌≡◌, ◌<◌, ◌≤◌, true, length, IfOk};
ghost use Rattle.std.specs.List.{list_all};
ghost use Rattle.script_reader.specs.Numbers.{delta_in, is_digit, is_number, number_in, number_of};

use crate::fault::Cause;
use ids_core::MOST_DELTA;

/// A digit.
pub fn is_digit(byte: u8) -> bool
    ensures { result ≡ is_digit byte }
{
    b'0' <= byte && byte <= b'9'
}

/// Whether all bytes are digits.
pub fn are_digits(word: &[u8]) -> bool
    ensures { result ≡ list_all is_digit word.now }
{
    word.iter().all(|byte| is_digit(*byte))
}

/// Whether a word is spelled as a number: 1 to 19 digits, the first of which is 0 in `0` alone.
pub fn is_number(word: &[u8]) -> bool
    ensures { result ≡ is_number word.now }
{
    are_digits(word)
        && (!word.is_empty() && (word.len() < 20 && (word.len() == 1 || word[0] != b'0')))
}

// The number that digits write.
fn number_of(word: &[u8]) -> u64
    requires digits { list_all is_digit word.now ≡ true }
    requires few { length word.now < 20 }
    ensures { result ≡ number_of word.now }
{
    let mut number = 0;
    for byte in word {
        number = number * 10 + u64::from(*byte - b'0');
    }
    number
}

/// The number that a word says, from a least to a most.
#[tactic(auto, unfolding(crate::specs::Numbers::number_in))]
pub fn number_in(least: u64, most: u64, word: &[u8]) -> Result<u64, Cause>
    ensures value { result ≡ number_in least most word.now }
    ensures within { IfOk result (λ n. (least ≤ n) × (n ≤ most)) }
{
    if !is_number(word) {
        return Err(Cause::Number);
    }
    let number = number_of(word);
    if least <= number && number <= most {
        Ok(number)
    } else {
        Err(Cause::Range)
    }
}

/// The same for numbers of 32 bits.
pub fn u32_in(least: u32, most: u32, word: &[u8]) -> Result<u32, Cause>
    ensures value { result ≡ number_in least most word.now }
    ensures within { IfOk result (λ n. (least ≤ n) × (n ≤ most)) }
{
    match number_in(u64::from(least), u64::from(most), word) {
        Ok(number) => Ok(number as u32),
        Err(why) => Err(why),
    }
}

/// The same for numbers of 8 bits, from 1 on.
pub fn u8_in(most: u8, word: &[u8]) -> Result<u8, Cause>
    ensures value { result ≡ number_in 1 most word.now }
    ensures within { IfOk result (λ n. (1 ≤ n) × (n ≤ most)) }
{
    match number_in(1, u64::from(most), word) {
        Ok(number) => Ok(number as u8),
        Err(why) => Err(why),
    }
}

/// The delta that a word says, from -10^12 to 10^12.
#[tactic(auto, unfolding(crate::specs::Numbers::delta_in))]
pub fn delta_in(word: &[u8]) -> Result<i64, Cause>
    ensures { result ≡ delta_in word.now }
{
    if !word.is_empty() && word[0] == b'-' {
        let (_, digits) = word.split_at(1);
        match number_in(0, MOST_DELTA, digits) {
            Ok(0) => Err(Cause::Number),
            Ok(number) => Ok(-(number as i64)),
            Err(why) => Err(why),
        }
    } else {
        match number_in(0, MOST_DELTA, word) {
            Ok(number) => Ok(number as i64),
            Err(why) => Err(why),
        }
    }
}
