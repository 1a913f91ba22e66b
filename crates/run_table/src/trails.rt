// The trails of a table, for its book.
ghost use Rattle.std.specs.Prelude.{◌≡◌, map, IfOk};
ghost use Rattle.dc_door.specs.Centres.{all_seen};

use dc_centre::Centre;
use ids_core::NoMemory;
use machine_trail::Kept;
use run_book::Trails;
use std::alloc::Global;

/// The trails of centres that are kept with them.
pub fn trails_of(alloc: Global, kept: Vec<Kept<Centre>>) -> Result<Trails, NoMemory>
    ensures { IfOk result (λ trails. trails ≡ map (λ centre. centre.entries) (all_seen kept.items)) }
{
    let mut trails = Trails::new(alloc);
    'kept: for one in kept {
        trails.push(one.trail)?;
    }
    Ok(trails)
}
