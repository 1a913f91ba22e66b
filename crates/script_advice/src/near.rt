// The word that was meant, where one was misspelled.
ghost use Rattle.std.specs.Prelude.{◌≤◌, Contains, length, nat_eq, IfOk, IfSome};
ghost use Rattle.strsim.specs.Edits.{levenshtein_row};

use std::alloc::{AllocError, Global};
use strsim::generic_levenshtein;

/// How many letters may be wrong, missing or too many in a word that was meant.
const MOST_EDITS: usize = 2;

/// The nearest of some words, where one is near enough to be meant: some of its letters are right, and few are not.
pub fn nearest(
    alloc: Global,
    word: &[u8],
    known: &[&'static [u8]],
) -> Result<Option<&'static [u8]>, AllocError>
    ensures known { IfOk result (λ near. IfSome near (Contains known.now)) }
    ensures few { IfOk result (λ near. IfSome near (λ one. levenshtein_row nat_eq word.now one.now (length one.now) ≤ MOST_EDITS)) }
{
    let mut found = None;
    let mut least = MOST_EDITS + 1;
    for one in known {
        let one = *one;
        let edits = generic_levenshtein(alloc, word, one)?;
        if edits < least && edits < word.len().min(one.len()) {
            least = edits;
            found = Some(one);
        }
    }
    Ok(found)
}
