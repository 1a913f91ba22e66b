// The settings of a centre.
ghost use Rattle.std.specs.Prelude.{◌≡◌, nat_le};
ghost use Rattle.ids_core.specs.declared.limits.TheConstants.{MOST_RECORDS};
ghost use Rattle.vv_core.specs.Vectors.{at};
ghost use Rattle.join_bundle.specs.Tests.{is_centre};
ghost use Rattle.centre_parts.specs.Tests.{is_member};

use dc_talk::Settings;
use ids_core::{MOST_CENTRES, MOST_RECORDS};
use join_bundle::is_centre;
use vv_core::Vector;

// Whether the centre is one of its centres, and those are few enough.
pub(crate) fn is_member(settings: &Settings) -> bool
    ensures { result ≡ is_member settings.now }
{
    is_centre(settings.n, settings.me) && settings.n <= MOST_CENTRES
}

// Whether K is a number of centres.
pub(crate) fn is_known(settings: &Settings) -> bool
    ensures { result ≡ is_centre settings.now.n settings.now.k }
{
    is_centre(settings.n, settings.k)
}

// Whether the centre stamps no more transactions than a centre may.
pub(crate) fn is_limited(settings: &Settings) -> bool
    ensures { result ≡ nat_le settings.now.limit MOST_RECORDS }
{
    settings.limit <= u64::from(MOST_RECORDS)
}

// Whether the own entry of a vector is within the limit. Where the vector has none, it is 0.
#[tactic(auto, using(crate::proofs::Entries::room_outside))]
pub(crate) fn has_room(settings: &Settings, vector: &Vector) -> bool
    ensures { result ≡ nat_le (at vector.now settings.now.me) settings.now.limit }
{
    if !is_centre(vector.width(), settings.me) {
        return true;
    }
    vector.get(settings.me) <= settings.limit
}
