// Stamps, and the entries of a vector that they are to be within.
ghost use Rattle.std.specs.Prelude.{◌≡◌};
ghost use Rattle.vv_core.specs.Vectors.{at, within};
ghost use Rattle.vv_core.specs.Stamps.{is_any_within};

use vv_core::{Stamp, Vector};

/// Whether one of the stamps is within the vector.
pub fn is_any_within(stamps: &[Stamp], at: &Vector) -> bool
    ensures { result ≡ is_any_within at.now stamps.now }
{
    for stamp in stamps {
        if has(at, stamp) {
            return true;
        }
    }
    false
}

// Whether the stamp is within the vector.
fn has(at: &Vector, stamp: &Stamp) -> bool
    ensures { result ≡ within stamp.now at.now }
{
    stamp.seq <= entry(at, stamp.centre)
}

/// The entry of a centre, 0 where the vector has none.
pub fn entry(vector: &Vector, centre: u8) -> u32
    ensures { result ≡ at vector.now centre }
{
    if centre < 1 || vector.width() < centre {
        0
    } else {
        vector.as_slice()[usize::from(centre - 1)]
    }
}
