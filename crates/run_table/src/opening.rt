// The taps of a script at first.
ghost use Rattle.std.specs.Prelude.{◌≡◌, ◌≤◌, IfOk};
ghost use Rattle.ids_core.specs.declared.limits.TheConstants.{MOST_CENTRES};
ghost use Rattle.script_core.specs.Taps.{objects_on, first_tap};
ghost use Rattle.run_table.specs.Taps.{new_taps};

use ids_core::{NoMemory, ObjectId};
use list_core::List;
use script_core::{Show, TapState, Tapped};
use std::alloc::Global;

// The objects that the tap of a centre shows, in their order.
fn objects_on(alloc: Global, taps: &[Tapped], centre: u8) -> Result<List<ObjectId>, NoMemory>
    ensures { IfOk result (λ objects. objects ≡ objects_on taps.now centre) }
{
    let mut objects = List::new(alloc);
    'taps: for tapped in taps {
        if tapped.centre == centre {
            objects.push(tapped.object)?;
        }
    }
    Ok(objects)
}

// The tap of a centre among `n` at first.
fn first_tap(alloc: Global, n: u8, taps: &[Tapped], centre: u8) -> Result<TapState, NoMemory>
    requires { (1 ≤ n) × (n ≤ MOST_CENTRES) }
    ensures { IfOk result (λ tap. tap ≡ first_tap n taps.now centre) }
{
    let objects = objects_on(alloc, taps, centre)?;
    let show = Show::opening(alloc, n, objects.as_slice())?;
    Ok(TapState { objects, show })
}

/// The taps of `n` centres at first, in order. An `Err` is want of memory.
pub(crate) fn first_taps(alloc: Global, n: u8, taps: &[Tapped]) -> Result<Vec<TapState>, NoMemory>
    requires { (1 ≤ n) × (n ≤ MOST_CENTRES) }
    ensures { IfOk result (λ all. all.items ≡ new_taps n taps.now) }
{
    let mut all = Vec::new(alloc);
    'centres: for centre in 1..n + 1 {
        all.push(first_tap(alloc, n, taps, centre)?)?;
    }
    Ok(all)
}
