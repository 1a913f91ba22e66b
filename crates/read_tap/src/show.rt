// What the table of shows keeps.
ghost use Rattle.std.specs.Prelude.{◌≡◌, length};
ghost use Rattle.boxcar.specs.Table.{first};

use boxcar::Keeps;
use boxcar::tag::{Names, Tag};
use ids_core::ObjectId;
use list_core::List;
use script_core::Show;

// The rule of a table of shows, whose tag is a number: each show has so many states.
pub(crate) struct Fits;

impl Keeps<Show> for Fits {
    ghost use Rattle.std.specs.Prelude.{◌≡◌, length};
    ghost use Rattle.boxcar.specs.Table.{first};

    ghost holds = { λ tag place show. length show.states ≡ first tag };
}

// How many objects there are.
struct Number;

impl Names<List<ObjectId>> for Number {
    ghost use Rattle.std.specs.Prelude.{[], ◌∷◌, length};

    ghost numbers = { λ objects. length objects ∷ [] };
}

// The tag of a table with the shows of these objects.
pub(crate) fn tag_of(objects: &List<ObjectId>) -> Tag
    ensures { first result.numbers ≡ length objects.now }
{
    Tag::of::<List<ObjectId>, Number>(objects)
}
