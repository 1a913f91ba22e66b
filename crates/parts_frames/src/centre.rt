// The plain parts of a centre.
ghost use Rattle.parts_codec.specs.Plain.{HasParts};
ghost use Rattle.parts_codec.specs.Spelling.{IsSpelledSettings, IsSpelledCentre};
ghost use Rattle.parts_frames.specs.Ranges.{IsRangedCentre};

use crate::see::See;
use dc_talk::Settings;
use parts_codec::PlainCentre;

/// The plain parts of a centre have bytes if their states are states, and their numbers are in range. The call changes
/// nothing. It takes no memory.
pub fn see_centre(centre: &PlainCentre)
    ensures { HasParts centre.now → IsRangedCentre centre.now → IsSpelledCentre centre.now }
{
    let applied = &centre.applied;
    let point = &applied.point;
    see_settings(&centre.settings);
    centre.mark.see();
    centre.trimmed.see();
    applied.vector.see();
    let _top = applied.top;
    applied.notes.see();
    point.vector.see();
    let _folded = point.folded;
    point.numbers.see();
    point.states.see();
    applied.rest.see();
    centre.rows.see();
    centre.outbox.see();
}

// Its settings have bytes.
fn see_settings(settings: &Settings)
    ensures { IsSpelledSettings settings.now }
{
    let _me = settings.me;
    let _n = settings.n;
    let _k = settings.k;
    let _limit = settings.limit;
}
