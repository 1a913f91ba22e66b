// The law of settling. It is a function with nothing to do, whose contract is the law.
ghost use Rattle.std.specs.Prelude.{◌≡◌, ℕ, false, List, ◌++◌, map};
ghost use Rattle.std.specs.List.{list_any};
ghost use Rattle.dc_talk.specs.declared.log.Note.{Note};
ghost use Rattle.script_core.specs.Carrying.{Passes, Settles, is_news};
ghost use Rattle.run_book.specs.Setups.{Setup};
ghost use Rattle.run_book.specs.Happenings.{Happened, happening, AreTogether, InRange};
ghost use Rattle.settle_law.specs.Settled.{AreSettled};

/// Where an actor makes a pass without news behind what happened among centres, of which some may be stopped, all
/// running centres have applied the same records: each has all that any of them has, whichever centre stamped it, one
/// that is stopped too (`pass`). So it is behind passes until one has no news, as `settle` makes them (`settles`). What
/// happened together by a moment did so without what happened later, so it is at the moment behind each `settle` of a run
/// (`moment`).
pub fn law_settle()
    ensures pass { (n k : ℕ) (setup : Setup) (before : List Happened) (actor : ℕ) (notes : List Note) → InRange n k setup → AreTogether n k setup (before ++ happening actor notes) → Passes n (map (λ note. note.deed) notes) → list_any is_news (map (λ note. note.deed) notes) ≡ false → AreSettled n (before ++ happening actor notes) }
    ensures settles { (n k : ℕ) (setup : Setup) (before : List Happened) (actor : ℕ) (notes : List Note) → InRange n k setup → AreTogether n k setup (before ++ happening actor notes) → Settles n (map (λ note. note.deed) notes) → AreSettled n (before ++ happening actor notes) }
    ensures moment { (n k : ℕ) (setup : Setup) (before later : List Happened) → AreTogether n k setup (before ++ later) → AreTogether n k setup before }
{}
