// The laws of vectors. Each is a function with nothing to do, whose contract is the law.
ghost use Rattle.std.specs.Prelude.{◌≡◌, ◌≤◌, ◌↔◌, ℕ, List, Option, All, length};
ghost use Rattle.vv_core.specs.Vectors.{zeros, join_of, meet_of, kth_of, reach, width_of, kth_largest, SoundFor, AllSound};

/// The vector of entries that are 0 is sound for every table.
pub fn law_zero_sound()
    ensures { (table : ℕ → ℕ → Option (List ℕ)) (n : ℕ) → SoundFor table (zeros n) }
{}

/// The join of two vectors that are sound for a table is sound for it.
pub fn law_join_sound()
    ensures { (table : ℕ → ℕ → Option (List ℕ)) (v w : List ℕ) →
        SoundFor table v → SoundFor table w → SoundFor table (join_of v w) }
{}

/// The meet of two vectors that are sound for a table is sound for it.
pub fn law_meet_sound()
    ensures { (table : ℕ → ℕ → Option (List ℕ)) (v w : List ℕ) →
        SoundFor table v → SoundFor table w → SoundFor table (meet_of v w) }
{}

/// The K-th largest of rows that are sound for a table, and of one width, is sound for it.
pub fn law_kth_sound()
    ensures { (table : ℕ → ℕ → Option (List ℕ)) (k : ℕ) (rows : List (List ℕ)) →
        1 ≤ k → All (λ row. length row ≡ width_of rows) rows →
        AllSound table rows → SoundFor table (kth_largest k rows) }
{}

/// A number is at most the K-th largest of a list exactly where at least K of the list reach it.
pub fn law_reach()
    ensures { (k m : ℕ) (xs : List ℕ) →
        1 ≤ k → k ≤ length xs → (m ≤ kth_of k xs) ↔ (k ≤ reach m xs) }
{}
