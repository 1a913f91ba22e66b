// A centre that has bytes.
ghost use Rattle.std.specs.Prelude.{◌≡◌};
ghost use Rattle.parts_codec.specs.Spelling.{IsSpelledCentre};

use crate::plain::PlainCentre;
use crate::spell::Spell;
use state_codec::NotPut;

/// A centre that has bytes, as an item of a journal.
#[derive(Drop)]
pub struct PartsItem {
    pub centre: PlainCentre,
    ghost fits: { ∥ IsSpelledCentre centre ∥₁ },
}

impl PartsItem {
    ghost use Rattle.std.specs.Prelude.{◌≡◌, ◌↔◌, IfOk, IfErr, Err};
    ghost use Rattle.state_codec.specs.declared.writing.NotPut.TheVariants.{Unfit};

    /// A centre as an item. An `Err` lets the centre go; it is `Unfit`, exactly where the centre has no bytes. It takes no memory.
    pub fn of(centre: PlainCentre) -> Result<PartsItem, NotPut>
        ensures ok { IfOk result (λ item. item.centre ≡ centre) }
        ensures fits { IfOk result (λ item. IsSpelledCentre centre) }
        ensures unfit { result ≡ Err Unfit ↔ (IsSpelledCentre centre → ⊥) }
        ensures err { IfErr result (λ refusal. refusal ≡ Unfit) }
    {
        if !centre.fits() {
            return Err(NotPut::Unfit);
        }
        Ok(PartsItem { centre })
    }
}
