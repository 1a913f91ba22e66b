// The law of the bytes of states. It is a function with nothing to do, whose contract is the law.
ghost use Rattle.std.specs.Prelude.{◌≡◌, ℕ, List, ◌++◌};
ghost use Rattle.state_codec.specs.declared.state.PlainState.{PlainState};
ghost use Rattle.state_codec.specs.Spelling.{spelled, IsSpelled};

/// The bytes of a state begin those of no other one, so each state has its own.
pub fn law_one_spelling()
    ensures { (state same : PlainState) (rest behind : List ℕ) →
        IsSpelled state → IsSpelled same → spelled state ++ rest ≡ spelled same ++ behind → (state ≡ same) × (rest ≡ behind) }
{}
