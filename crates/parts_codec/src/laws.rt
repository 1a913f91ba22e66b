// The law of the bytes of centres. It is a function with nothing to do, whose contract is the law.
ghost use Rattle.std.specs.Prelude.{◌≡◌, ℕ, List, ◌++◌};
ghost use Rattle.parts_codec.specs.declared.plain.PlainCentre.{PlainCentre};
ghost use Rattle.parts_codec.specs.Spelling.{centre_bytes, IsSpelledCentre};

/// The bytes of a centre begin those of no other one, so each centre has its own.
pub fn law_one_spelling()
    ensures { (centre same : PlainCentre) (rest behind : List ℕ) →
        IsSpelledCentre centre → IsSpelledCentre same → centre_bytes centre ++ rest ≡ centre_bytes same ++ behind → (centre ≡ same) × (rest ≡ behind) }
{}
