// Cuts a text at its line feeds.
ghost use Rattle.std.specs.Prelude.{◌≡◌, ◌≢◌, ◌<◌, [], ◌∷◌, ◌++◌, ◌≤◌, All, false, length, take, true, IfSome, IfNone};
ghost use Rattle.script_core.specs.Lines.{lines_of};
ghost use Rattle.script_reader.specs.Words.{is_hidden, is_plain_text, is_shown, texts_of, words_of};

// What stands before and behind the first line feed.
fn at_feed(text: &[u8]) -> Option<(&[u8], &[u8])>
    ensures found { IfSome result (λ parts. (text.now ≡ parts.0.now ++ 10 ∷ parts.1.now) × All (λ b. b ≢ 10) parts.0.now) }
    ensures none { IfNone result (All (λ b. b ≢ 10) text.now) }
{
    let at = text.iter().position(|byte| *byte == b'\n')?;
    Some((&text[..at], &text[at + 1..]))
}

/// The first line, without its line feed, and what stands behind that.
pub fn first_line(text: &[u8]) -> Option<(&[u8], &[u8])>
    ensures lines { IfSome result (λ parts. lines_of text.now ≡ parts.0.now ∷ lines_of parts.1.now) }
    ensures shorter { IfSome result (λ parts. length parts.1.now < length text.now) }
    ensures none { IfNone result (lines_of text.now ≡ []) }
{
    if text.is_empty() {
        return None;
    }
    match at_feed(text) {
        Some((line, rest)) => Some((line, rest)),
        None => Some((text, &text[text.len()..])),
    }
}

// A byte of a word: from 0x21 to 0x7E.
fn is_shown(byte: u8) -> bool
    ensures { result ≡ is_shown byte }
{
    b' ' < byte && byte < 127
}

// What stands before and behind the first byte that is none of a word, and that byte.
fn at_unshown(text: &[u8]) -> Option<(&[u8], u8, &[u8])>
    ensures { IfSome result (λ parts. (text.now ≡ parts.0.now ++ parts.1 ∷ parts.2.now) × All (λ b. is_shown b ≡ true) parts.0.now) }
{
    let at = text.iter().position(|byte| !is_shown(*byte))?;
    Some((&text[..at], text[at], &text[at + 1..]))
}

// Puts a word behind so many others, where it has a byte, and says how many they are then; nothing where there is no
// place for it.
fn put_word<'a>(word: &'a [u8], places: &mut [&'a [u8]], count: usize) -> Option<usize>
    requires few { count ≤ length places.old }
    requires shown { All (λ b. is_shown b ≡ true) word.now }
    ensures few { IfSome result (λ now. now ≤ length places.new) }
    ensures words { IfSome result (λ now. texts_of (take now places.new) ≡ texts_of (take count places.old) ++ words_of word.now) }
{
    if word.is_empty() {
        return Some(count);
    }
    if count == places.len() {
        return None;
    }
    places[count] = word;
    Some(count + 1)
}

// The first line, where a line feed ends it and it has bytes of words and spaces alone, what stands behind it, and how
// many words it has, which are put in their places; nothing where there are not as many places.
fn cut_line<'a>(text: &'a [u8], places: &mut [&'a [u8]]) -> Option<(&'a [u8], &'a [u8], usize)>
    ensures line { IfSome result (λ parts. text.now ≡ parts.0.now ++ 10 ∷ parts.1.now) }
    ensures shown { IfSome result (λ parts. All (λ b. is_hidden b ≡ false) parts.0.now) }
    ensures few { IfSome result (λ parts. parts.2 ≤ length places.new) }
    ensures words { IfSome result (λ parts. texts_of (take parts.2 places.new) ≡ words_of parts.0.now) }
{
    let mut rest = text;
    let mut count = 0;
    'words: while let Some((word, byte, more)) = at_unshown(rest) {
        count = put_word(word, places, count)?;
        if byte == b'\n' {
            let (line, _) = text.split_at(text.len() - more.len() - 1);
            return Some((line, more, count));
        }
        if byte != b' ' {
            return None;
        }
        rest = more;
    }
    None
}

/// The first line, and what stands behind it, as `first_line` gives them. Where it is of the usual kind, its words are put
/// in their places, and it is said how many they are: then it has such bytes alone as a line has that is not skipped.
pub fn next_line<'a>(
    text: &'a [u8],
    places: &mut [&'a [u8]],
) -> Option<(&'a [u8], &'a [u8], Option<usize>)>
    ensures lines { IfSome result (λ parts. lines_of text.now ≡ parts.0.now ∷ lines_of parts.1.now) }
    ensures shorter { IfSome result (λ parts. length parts.1.now < length text.now) }
    ensures plain { IfSome result (λ parts. IfSome parts.2 (λ count. is_plain_text parts.0.now ≡ true)) }
    ensures few { IfSome result (λ parts. IfSome parts.2 (λ count. count ≤ length places.new)) }
    ensures words { IfSome result (λ parts. IfSome parts.2 (λ count. texts_of (take count places.new) ≡ words_of parts.0.now)) }
    ensures none { IfNone result (lines_of text.now ≡ []) }
{
    match cut_line(text, places) {
        Some((line, more, count)) => Some((line, more, Some(count))),
        None => match first_line(text) {
            Some((line, more)) => Some((line, more, None)),
            None => None,
        },
    }
}
