// The last of marked words.
ghost use Rattle.std.specs.Prelude.{◌≡◌, ℕ, [], ◌∷◌, ◌++◌, List};
ghost use Rattle.ids_core.specs.declared.ids.Mark.{Mark};
ghost use Rattle.tx_graph.specs.Unseen.{IsLastOf, is_later};

use ids_core::{Mark, Name};

// The word with the greatest mark, where there is any.
pub(crate) fn last_of(words: &[(Mark, Name)]) -> Option<(Mark, Name)>
    ensures { IsLastOf words.now result }
{
    let mut last = None;
    for (mark, word) in words {
        last = later(last, mark, word);
    }
    last
}

// The later of the last so far and one more.
fn later(last: Option<(Mark, Name)>, mark: &Mark, word: &Name) -> Option<(Mark, Name)>
    ensures { (before : List (Mark × List ℕ)) → IsLastOf before last → IsLastOf (before ++ (mark.now, word.now) ∷ []) result }
{
    if is_later(mark, &last) {
        Some((*mark, *word))
    } else {
        last
    }
}

// Whether the mark is above that of the last so far, where there is one.
fn is_later(mark: &Mark, last: &Option<(Mark, Name)>) -> bool
    ensures { result ≡ is_later mark.now last.now }
{
    match last {
        Some((greatest, _)) => *greatest < *mark,
        None => true,
    }
}
