// Vectors.
ghost use Rattle.std.specs.Prelude.{◌≡◌, ◌≤◌, ◌++◌, OnOk, Err};
ghost use Rattle.ids_core.specs.declared.limits.TheConstants.{MOST_CENTRES};
ghost use Rattle.state_codec.specs.declared.writing.NotPut.TheVariants.{Unfit};
ghost use Rattle.state_codec.specs.Reading.{Gives, times_at};
ghost use Rattle.parts_codec.specs.Spelling.{vector_bytes, IsSpelledVector};
ghost use Rattle.parts_codec.specs.Reading.{half_at, vector_at};

use crate::lists::{each_fits, put_each};
use crate::spell::Spell;
use ids_core::MOST_CENTRES;
use state_codec::{NotPut, Stop, u8_at, u32_at};
use std::alloc::Global;
use vv_core::{Stamp, Vector};

impl Spell for Vector {
    ghost has_bytes = { IsSpelledVector };

    ghost spelled = { vector_bytes };

    ghost reading = { vector_at };

    fn fits(&self) -> bool {
        each_fits(self.as_slice())
    }

    fn put(&self, out: &mut Vec<u8>) -> Result<(), NotPut> {
        self.width().put(out)?;
        put_each(out, self.as_slice())
    }

    #[tactic(auto, unfolding(crate::specs::Reading::vector_at))]
    fn at(_: Global, bytes: &[u8]) -> Result<(Self, &[u8]), Stop> {
        let (width, rest) = u8_at(1, MOST_CENTRES, bytes)?;
        entries_at(width, rest)
    }
}

// The vector of so many entries.
fn entries_at(width: u8, bytes: &[u8]) -> Result<(Vector, &[u8]), Stop>
    requires { (1 ≤ width) × (width ≤ MOST_CENTRES) }
    ensures { Gives (λ x. (x.0, x.1.now)) result (times_at half_at width bytes.now) }
{
    let mut vector = Vector::zero(width);
    let mut rest = bytes;
    for place in 0..width {
        let (seq, behind) = u32_at(0, u32::MAX, rest)?;
        let centre = place + 1;
        vector = vector.raise(&Stamp { centre, seq });
        rest = behind;
    }
    Ok((vector, rest))
}
