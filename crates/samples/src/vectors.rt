// Vectors for tests.
ghost use Rattle.std.specs.Prelude.{◌≡◌, length};

use vv_core::{Stamp, Vector};

/// The vector of one entry.
pub fn single(seq: u32) -> Vector
    ensures { length result ≡ 1 }
{
    Vector::zero(1).raise(&Stamp { centre: 1, seq })
}

/// The vector of two entries.
pub fn pair(first: u32, second: u32) -> Vector
    ensures { length result ≡ 2 }
{
    let first = Stamp {
        centre: 1,
        seq: first,
    };
    let second = Stamp {
        centre: 2,
        seq: second,
    };
    Vector::zero(2).raise(&first).raise(&second)
}
