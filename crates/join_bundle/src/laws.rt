// The law of the conditions.
ghost use Rattle.std.specs.Prelude.{◌≡◌};
ghost use Rattle.join_bundle.specs.declared.condition.Condition.{Condition};
ghost use Rattle.join_bundle.specs.declared.part.BundleParts.{BundleParts};
ghost use Rattle.join_bundle.specs.Bundles.{IsBundle};
ghost use Rattle.join_bundle.specs.Conditions.{IsFirstBroken};

/// Parts that break a condition make no bundle, and there is one that they break first.
pub fn law_first_broken()
    ensures none { (parts : BundleParts) (condition : Condition) → IsFirstBroken parts condition → IsBundle parts → ⊥ }
    ensures one { (parts : BundleParts) (condition other : Condition) → IsFirstBroken parts condition → IsFirstBroken parts other → condition ≡ other }
{}
