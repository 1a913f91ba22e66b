// The vectors of a bundle.
ghost use Rattle.std.specs.Prelude.{◌≡◌, ◌==◌, length};
ghost use Rattle.std.specs.List.{list_all};
ghost use Rattle.join_bundle.specs.Tests.{is_centre, is_over};

use vv_core::Vector;

/// Whether each row has the width.
pub fn have_width(rows: &[Vector], n: u8) -> bool
    ensures { result ≡ list_all (λ row. length row == n) rows.now }
{
    rows.iter().all(|row| row.width() == n)
}

/// Whether the number is that of a centre among so many, counted from 1.
pub fn is_centre(n: u8, centre: u8) -> bool
    ensures { result ≡ is_centre n centre }
{
    1 <= centre && centre <= n
}

/// Whether a vector has another's width, and covers it.
pub fn is_over(vector: &Vector, other: &Vector) -> bool
    ensures { result ≡ is_over vector.now other.now }
{
    vector.width() == other.width() && vector.covers(other)
}
