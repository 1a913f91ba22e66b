// The law of the conditions.
ghost use Rattle.std.specs.Prelude.{◌≡◌};
ghost use Rattle.centre_parts.specs.declared.condition.Condition.{Condition};
ghost use Rattle.centre_parts.specs.declared.part.CentreParts.{CentreParts};
ghost use Rattle.centre_parts.specs.Conditions.{MeetsAll, IsFirstBroken};

/// Parts that break a condition do not meet all, and there is one that they break first.
pub fn law_first_broken()
    ensures none { (parts : CentreParts) (condition : Condition) → IsFirstBroken parts condition → MeetsAll parts → ⊥ }
    ensures one { (parts : CentreParts) (condition other : Condition) → IsFirstBroken parts condition → IsFirstBroken parts other → condition ≡ other }
{}
