// How many entries the journal of a trail has.
ghost use Rattle.std.specs.Prelude.{◌≡◌, length};
ghost use Rattle.trail_kept.specs.Kept.{kept};

use dc_journal::is_kept;
use dc_talk::Entry;

/// How many entries of a trail are put in a journal.
pub(crate) fn entries_in(trail: &[Entry]) -> u64
    ensures { result ≡ length (kept trail.now) }
{
    let mut count: usize = 0;
    for entry in trail {
        if is_kept(&entry.say) {
            count += 1;
        }
    }
    count as u64
}
