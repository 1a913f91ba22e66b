// Tags and dependency sets.
ghost use Rattle.std.specs.Prelude.{◌≡◌, List, Bool};
ghost use Rattle.tally_core.specs.Sees.{Tests, Tagged, TagsEqualSees};

/// Among the acts on one word, the live adds (those that no list of seen identifiers holds) and the
/// adds that no remove sees: there is one of the former where there is one of the latter, and the
/// greatest are the same. So a state that keeps tallies tells the words, and for each the greatest add,
/// that dependency sets tell.
pub fn law_sees<X>()
    ensures { (acts : List X) (tests : Tests X) → Tagged acts tests → TagsEqualSees acts tests }
{}
