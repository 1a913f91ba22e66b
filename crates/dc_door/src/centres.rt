// The centres of a system, at first.
ghost use Rattle.std.specs.Prelude.{◌≡◌, ◌≤◌, IfOk, All, length};
ghost use Rattle.ids_core.specs.declared.limits.TheConstants.{MOST_CENTRES, MOST_RECORDS};
ghost use Rattle.dc_door.specs.Centres.{all_seen, IsKeptCentre, new_centres};

use dc_centre::Centre;
use ids_core::NoMemory;
use machine_trail::Kept;
use std::alloc::Global;

/// The `n` new centres in order, each with an empty trail: the I-th is centre I among `n`. Updates are stable
/// once `k` centres know them, and each centre stamps at most `limit` transactions. Each stands for its trail.
pub fn centres_of(alloc: Global, n: u8, k: u8, limit: u64) -> Result<Vec<Kept<Centre>>, NoMemory>
    requires number { (1 ≤ n) × (n ≤ MOST_CENTRES) }
    requires known { (1 ≤ k) × (k ≤ n) }
    requires most { (1 ≤ limit) × (limit ≤ MOST_RECORDS) }
    ensures centres { IfOk result (λ kept. all_seen kept.items ≡ new_centres n k limit) }
    ensures number { IfOk result (λ kept. length kept.items ≡ n) }
    ensures kept { IfOk result (λ kept. All IsKeptCentre kept.items) }
{
    let mut kept = Vec::new(alloc);
    'centres: for me in 1..n + 1 {
        let centre = Centre::new(alloc, me, n, k, limit)?;
        kept.push(Kept::new(alloc, centre))?;
    }
    Ok(kept)
}
