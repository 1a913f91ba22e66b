// Whether notes were news to a centre.
ghost use Rattle.std.specs.Prelude.{◌≡◌, ◌≤◌, drop, length};
ghost use Rattle.std.specs.List.{list_any};
ghost use Rattle.dc_talk.specs.declared.log.Note.{Note};
ghost use Rattle.script_core.specs.Carrying.{is_news};

use dc_talk::{Ask, Deed, Fate, Note, Say};

// Whether one of the notes behind the first so many was news to a centre.
pub(crate) fn has_news(notes: &[Note], before: usize) -> bool
    requires { before ≤ length notes.now }
    ensures { result ≡ list_any (λ note. is_news note.deed) (drop before notes.now) }
{
    let (_, later) = notes.split_at(before);
    later.iter().any(|note| is_news(&note.deed))
}

// Whether a deed was news to a centre: a record that it applied, or a vector that told it more.
fn is_news(deed: &Deed) -> bool
    ensures { result ≡ is_news deed.now }
{
    match deed {
        Deed::Asked {
            centre: _,
            ask: Ask::Deliver { .. },
            fate: Fate::Unheard(Say::Applied { .. }),
        } => true,
        Deed::Asked {
            centre: _,
            ask: Ask::Learn { .. },
            fate: Fate::Unheard(Say::Learned { fresh }),
        } => *fresh,
        _ => false,
    }
}
