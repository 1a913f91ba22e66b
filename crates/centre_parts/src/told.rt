// What a centre was told of the others.
ghost use Rattle.std.specs.Prelude.{◌≡◌, ◌&&◌, true, length};
ghost use Rattle.k_stable.specs.Tables.{IsTable, stable_of, all_known_of};
ghost use Rattle.join_bundle.specs.Tests.{is_over};
ghost use Rattle.centre_parts.specs.Conditions.{table_of};
ghost use Rattle.centre_parts.specs.Tests.{is_told};

use crate::part::CentreParts;
use crate::settings::{is_known, is_member};
use crate::vectors::are_rows;
use join_bundle::is_over;
use k_stable::Told;

// Whether what is stable covers the mark.
pub(crate) fn is_stable_over(parts: &CentreParts) -> bool
    ensures { result ≡ (is_told parts.now && is_over (stable_of (table_of parts.now) parts.now.applied.vector) parts.now.mark) }
{
    is_told(parts) && is_over(&told_of(parts).stable(&parts.applied.vector), &parts.mark)
}

// Whether what all centres are known to have covers trimmed.
pub(crate) fn is_known_over(parts: &CentreParts) -> bool
    ensures { result ≡ (is_told parts.now && is_over (all_known_of (table_of parts.now) parts.now.applied.vector) parts.now.trimmed) }
{
    is_told(parts)
        && is_over(
            &told_of(parts).all_known(&parts.applied.vector),
            &parts.trimmed,
        )
}

// Whether the rows make a told table, and the vector is as wide.
fn is_told(parts: &CentreParts) -> bool
    ensures { result ≡ is_told parts.now }
{
    let settings = &parts.settings;
    is_member(settings)
        && is_known(settings)
        && are_rows(parts.rows.as_slice(), settings.n)
        && parts.applied.vector.width() == settings.n
}

// The told table that the rows make.
#[tactic(auto, using(crate::proofs::Tables::told_table, crate::proofs::Tables::told_width))]
fn told_of(parts: &CentreParts) -> Told
    requires { is_told parts.now ≡ true }
    ensures table { result ≡ table_of parts.now }
    ensures width { length parts.now.applied.vector ≡ result.n }
{
    let settings = &parts.settings;
    Told::of_rows(settings.me, settings.n, settings.k, parts.rows.as_slice())
}
