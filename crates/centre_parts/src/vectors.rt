// The vectors of a centre.
ghost use Rattle.std.specs.Prelude.{◌≡◌};
ghost use Rattle.centre_parts.specs.Tests.{are_wide, are_rows};

use crate::part::CentreParts;
use join_bundle::have_width;
use vv_core::Vector;

// Whether vector, base, mark and trimmed have an entry for each centre.
pub(crate) fn are_wide(parts: &CentreParts) -> bool
    ensures { result ≡ are_wide parts.now }
{
    let n = parts.settings.n;
    parts.applied.vector.width() == n
        && parts.applied.point.vector.width() == n
        && parts.mark.width() == n
        && parts.trimmed.width() == n
}

// Whether there is a row for each of `n` centres, with an entry for each.
pub(crate) fn are_rows(rows: &[Vector], n: u8) -> bool
    ensures { result ≡ are_rows n rows.now }
{
    rows.len() == usize::from(n) && have_width(rows, n)
}
