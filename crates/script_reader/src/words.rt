// The words of a line.
ghost use Rattle.std.specs.Prelude.{◌≡◌, ◌≤◌, [], ◌∷◌, ◌++◌, ℕ, All, length, take, true, false, IfSome, IfNone};
ghost use Rattle.script_reader.specs.Words.{is_blank, is_plain, is_plain_text, texts_of, without_return, words_of};

/// How many words of a line are looked at: more than a form has.
pub const MOST_WORDS: usize = 6;

/// A space or a tab.
pub fn is_blank(byte: u8) -> bool
    ensures { result ≡ is_blank byte }
{
    byte == b' ' || byte == b'\t'
}

// What stands before and behind the first blank.
fn at_blank(text: &[u8]) -> Option<(&[u8], &[u8])>
    ensures found { IfSome result (λ parts. (b : ℕ) × (text.now ≡ parts.0.now ++ b ∷ parts.1.now) × (is_blank b ≡ true) × All (λ x. is_blank x ≡ false) parts.0.now) }
    ensures none { IfNone result (All (λ x. is_blank x ≡ false) text.now) }
{
    let at = text.iter().position(|byte| is_blank(*byte))?;
    Some((&text[..at], &text[at + 1..]))
}

/// The first word of a text, and what stands behind it.
pub fn first_word(text: &[u8]) -> Option<(&[u8], &[u8])>
    ensures found { IfSome result (λ parts. words_of text.now ≡ parts.0.now ∷ words_of parts.1.now) }
    ensures none { IfNone result (words_of text.now ≡ []) }
{
    let mut rest = text;
    'blanks: while let Some((word, more)) = at_blank(rest) {
        if !word.is_empty() {
            return Some((word, more));
        }
        rest = more;
    }
    if rest.is_empty() {
        None
    } else {
        Some((rest, b""))
    }
}

/// Cuts the first words of a text off, as many as there are places for, and says how many they are.
pub fn cut_words<'a>(text: &'a [u8], places: &mut [&'a [u8]]) -> usize
    ensures few { result ≤ length places.old }
    ensures words { texts_of (take result places.new) ≡ take (length places.old) (words_of text.now) }
{
    let mut rest = text;
    for count in 0..places.len() {
        match first_word(rest) {
            Some((word, more)) => {
                places[count] = word;
                rest = more;
            }
            None => return count,
        }
    }
    places.len()
}

/// A line without the carriage return that may end it.
pub fn without_return(line: &[u8]) -> &[u8]
    ensures { result.now ≡ without_return line.now }
{
    let length = line.len();
    if length > 0 && line[length - 1] == b'\r' {
        let (front, _) = line.split_at(length - 1);
        front
    } else {
        line
    }
}

/// A byte of a line that is not skipped.
pub fn is_plain(byte: u8) -> bool
    ensures { result ≡ is_plain byte }
{
    byte == b'\t' || (b' ' <= byte && byte <= b'~')
}

/// Whether a line has those bytes alone that one has that is not skipped: tabs, and from 0x20 to 0x7E.
pub fn is_plain_text(text: &[u8]) -> bool
    ensures { result ≡ is_plain_text text.now }
{
    text.iter().all(|byte| is_plain(*byte))
}
