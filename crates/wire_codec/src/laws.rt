// The laws of frames. Each is a function with nothing to do, whose contract is the law.
ghost use Rattle.std.specs.Prelude.{◌≡◌, ◌≢◌, ℕ, List, [], ◌++◌, Some};
ghost use Rattle.std.specs.List.{concat};
ghost use Rattle.wire_codec.specs.declared.item.Item.{Item};
ghost use Rattle.wire_codec.specs.Fields.{End, EndsEarly, after};
ghost use Rattle.wire_codec.specs.Grammar.{frame};
ghost use Rattle.wire_codec.specs.Spelling.{spelled, IsSpelled};

/// A spelling is the bytes of whole fields of a frame, each of them allowed, and these tell the version and the item.
pub fn law_fields()
    ensures { (version : ℕ) (item : Item) → IsSpelled version item →
        (whole : List (List ℕ)) × (after frame whole ≡ Some (End (version, item))) × (spelled version item ≡ concat whole) }
{}

/// No spelling begins another one, so each item has one spelling in a version.
pub fn law_one_spelling()
    ensures { (version other : ℕ) (item same : Item) (rest behind : List ℕ) →
        IsSpelled version item → IsSpelled other same → spelled version item ++ rest ≡ spelled other same ++ behind →
        (version ≡ other) × (item ≡ same) × (rest ≡ behind) }
{}

/// A front of a spelling that is not all of it ends early.
pub fn law_front()
    ensures { (version : ℕ) (item : Item) (front more : List ℕ) →
        IsSpelled version item → spelled version item ≡ front ++ more → more ≢ [] → EndsEarly frame front }
{}
