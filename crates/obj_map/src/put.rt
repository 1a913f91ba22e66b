// What a put keeps, and the greatest of several.
ghost use Rattle.std.specs.Prelude.{◌≡◌};
ghost use Rattle.obj_map.specs.Puts.{later, greatest};

use ids_core::{Mark, Name, OpId};

/// What a live put keeps: the rank of its transaction and its word.
#[derive(Clone, Copy)]
pub struct Put {
    pub rank: u64,
    pub word: Name,
}

// The word of the put with the greatest mark.
pub(crate) fn greatest(puts: &[(OpId, Put)]) -> Option<Name>
    ensures { result ≡ greatest puts.now }
{
    let mut best: Option<(Mark, Name)> = None;
    for (id, put) in puts {
        best = later(best, id, put);
    }
    match best {
        Some((_, word)) => Some(word),
        None => None,
    }
}

// The later of two puts.
fn later(best: Option<(Mark, Name)>, id: &OpId, put: &Put) -> Option<(Mark, Name)>
    ensures { result ≡ later best (id.now, put.now) }
{
    let mark = Mark {
        rank: put.rank,
        id: *id,
    };
    match best {
        Some((old, word)) => {
            if old < mark {
                Some((mark, put.word))
            } else {
                Some((old, word))
            }
        }
        None => Some((mark, put.word)),
    }
}
