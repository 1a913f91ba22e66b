// The laws of told tables. Each is a function with nothing to do, whose contract is the law.
ghost use Rattle.std.specs.Prelude.{◌≡◌, ◌≤◌, ◌↔◌, ℕ, List, Option, All, length};
ghost use Rattle.vv_core.specs.Vectors.{at, reach, column, Covers, SoundFor, AllSound};
ghost use Rattle.k_stable.specs.Tables.{Table, IsTable, Learns, IsLater, rows_of, stable_of, all_known_of};

/// Where all that was told is sound for a table of dependency vectors, it stays so once a vector that is sound for
/// it is learned.
pub fn law_learn_sound()
    ensures { (deps : ℕ → ℕ → Option (List ℕ)) (old new : Table) (from : ℕ) (vector : List ℕ) →
        IsTable old → IsTable new → Learns old new from vector → AllSound deps old.rows → SoundFor deps vector → AllSound deps new.rows }
{}

/// Where the own vector and all that was told are sound for a table of dependency vectors, so is what is stable.
pub fn law_stable_sound()
    ensures { (deps : ℕ → ℕ → Option (List ℕ)) (t : Table) (own : List ℕ) →
        IsTable t → length own ≡ t.n → AllSound deps t.rows → SoundFor deps own → SoundFor deps (stable_of t own) }
{}

/// The same of what all know.
pub fn law_all_known_sound()
    ensures { (deps : ℕ → ℕ → Option (List ℕ)) (t : Table) (own : List ℕ) →
        IsTable t → length own ≡ t.n → AllSound deps t.rows → SoundFor deps own → SoundFor deps (all_known_of t own) }
{}

/// A number is within what is stable at a centre exactly where at least K rows reach it there, and the own vector.
pub fn law_stable_reach()
    ensures { (t : Table) (own : List ℕ) (e m : ℕ) → IsTable t → length own ≡ t.n →
        (m ≤ at (stable_of t own) e) ↔ ((t.k ≤ reach m (column e (rows_of t own))) × (m ≤ at own e)) }
{}

/// A number is within what all know at a centre exactly where every row reaches it there.
pub fn law_all_known_reach()
    ensures { (t : Table) (own : List ℕ) (e m : ℕ) → IsTable t → 1 ≤ e → e ≤ t.n →
        (m ≤ at (all_known_of t own) e) ↔ All (λ row. m ≤ at row e) (rows_of t own) }
{}

/// What was learned stays, and with it what is stable and what all know: with more learned, and more in the own
/// vector, both have no less. What all know is within the own vector.
pub fn law_later()
    ensures learn { (old new : Table) (from : ℕ) (vector : List ℕ) → Learns old new from vector → IsLater old new }
    ensures stable { (old new : Table) (own later : List ℕ) → IsTable old → IsTable new → length own ≡ old.n → length later ≡ new.n → IsLater old new → Covers later own → Covers (stable_of new later) (stable_of old own) }
    ensures all_known { (old new : Table) (own later : List ℕ) → IsLater old new → Covers later own → Covers (all_known_of new later) (all_known_of old own) }
    ensures own { (t : Table) (own : List ℕ) → IsTable t → at (all_known_of t own) t.me ≤ at own t.me }
{}
