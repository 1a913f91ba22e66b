// The operator in a phase.
ghost use Rattle.std.specs.Prelude.{◌≡◌, ◌≤◌, ◌<◌, ◌^◌, length, All, IfOk, OnOk};
ghost use Rattle.ids_core.specs.declared.limits.TheConstants.{MOST_CENTRES};
ghost use Rattle.dc_talk.specs.Acting.{acting};
ghost use Rattle.script_core.specs.Steps.{IsOperatorStep};
ghost use Rattle.phase_actors.specs.Scenes.{IsScene};
ghost use Rattle.phase_actors.specs.Taps.{AreFeeders, shows_kept, HaveFed};
ghost use Rattle.phase_actors.specs.Workers.{PlaysOperator};
ghost use Rattle.phase_actors.specs.Actors.{IsCallerOf, HasOperated};

use crate::callers::Caller;
use crate::feeding::take_order;
use crate::scene::Scene;
use dc_host::HostDoor;
use dc_talk::{Door, Log};
use ids_core::NoMemory;
use io_edge::Gate;
use read_tap::TapFeeder;
use std::alloc::Global;
use std::sync::Wait;

// The steps that were dealt to the operator of a scene, through a door, one after another.
fn take_orders<D: Door, R: Wait>(
    alloc: Global,
    door: &mut D,
    scene: Scene<'_>,
    feeders: &mut Vec<TapFeeder<'_, R>>,
    log: &mut Log,
) -> Result<(), NoMemory>
    requires centres { (D.shown door.old).centres ≡ scene.script.now.n }
    requires steps { All (IsOperatorStep scene.script.now.n) scene.dealt.now.operator.items }
    requires few { length scene.dealt.now.operator.items < 2 ^ 32 }
    requires feeders { AreFeeders scene.script.now.n scene.taps.now feeders.old.items }
    ensures place { D.place door.new ≡ D.place door.old }
    ensures plays { OnOk result (PlaysOperator scene.entry.taps.now scene.entry.script.now.n scene.entry.number (shows_kept scene.entry.taps.now feeders.old.items) scene.entry.dealt.now.operator.items (acting (D.shown door.old) log.old) (acting (D.shown door.new) log.new) (shows_kept scene.entry.taps.now feeders.new.items)) }
    ensures fed { OnOk result (HaveFed feeders.old.items feeders.new.items) }
{
    let steps = scene.dealt.operator_line();
    let mut number = 0;
    'steps: for step in steps {
        number += 1;
        log.set(scene.number, number);
        take_order(alloc, door, scene, feeders, step, log)?;
    }
    Ok(())
}

/// The steps of the operator over the hosts, as a caller of its own, with the feeders of the taps. After an `Err`, want of
/// memory, its passes and the feeders are gone.
pub fn operate_through<'f, R: Wait, G: Gate>(
    rt: &R,
    alloc: Global,
    scene: Scene<'_>,
    gate: &G,
    caller: Caller,
    feeders: Vec<TapFeeder<'f, R>>,
) -> Result<(Caller, Vec<TapFeeder<'f, R>>), NoMemory>
    requires scene { IsScene scene }
    requires caller { IsCallerOf scene caller }
    requires feeders { AreFeeders scene.script.now.n scene.taps.now feeders.items }
    ensures { IfOk result (λ done. HasOperated scene.entry caller feeders.entry.items done.0 done.1.items) }
{
    let Caller { row, mut log } = caller;
    let mut feeders = feeders;
    let mut door = HostDoor::new(rt, scene.hosts, row, log.actor(), gate);
    take_orders(alloc, &mut door, scene, &mut feeders, &mut log)?;
    let row = door.part();
    Ok((Caller { row, log }, feeders))
}
