// The laws of tallies over operations.
ghost use Rattle.std.specs.Prelude.{◌≡◌, List, fold};
ghost use Rattle.std.specs.FinMap.{empty};
ghost use Rattle.ids_core.specs.declared.ids.Mark.{Mark};
ghost use Rattle.ids_core.specs.Kinds.{Commutes, Distinct};
ghost use Rattle.tally_core.specs.Cells.{Tallied};
ghost use Rattle.tally_core.specs.Changes.{Change, step, IsTallyOf, LiveByOps};

/// Operations with different identifiers commute.
pub fn law_order<O, P>()
    ensures { (does : (Mark × O) → Change P) → Commutes (step does) }
{}

/// The fold of operations has the tallies of the definition, also where a remove comes before the add
/// that it saw.
pub fn law_tallies<O, P>()
    ensures { (does : (Mark × O) → Change P) (ops : List (Mark × O)) → IsTallyOf does ops (fold (step does) empty ops) }
{}

/// Of operations with different identifiers: an identifier is live under a name exactly where its add
/// is among them and none of them under that name is over it, and a name is live exactly where it has
/// such an identifier.
pub fn law_live<O, P>()
    ensures { (does : (Mark × O) → Change P) (ops : List (Mark × O)) (m : Tallied P) → Distinct ops → IsTallyOf does ops m → LiveByOps does ops m }
{}
