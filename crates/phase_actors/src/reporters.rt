// The reporter and the pruner of a centre in a phase.
ghost use Rattle.std.specs.Prelude.{◌≡◌, ◌≤◌, IfOk, OnOk};
ghost use Rattle.ids_core.specs.declared.limits.TheConstants.{MOST_CENTRES};
ghost use Rattle.dc_talk.specs.Acting.{acting};
ghost use Rattle.dc_talk.specs.Doors.{IsBehind};
ghost use Rattle.script_core.specs.Steps.{IsCount};
ghost use Rattle.phase_actors.specs.Scenes.{IsScene};
ghost use Rattle.phase_actors.specs.Workers.{PlaysReporter, PlaysPruner};
ghost use Rattle.phase_actors.specs.Actors.{IsCallerOf, HasReported, HasPruned};

use crate::callers::Caller;
use crate::pace::{Pace, Worker};
use crate::scene::Scene;
use dc_host::HostDoor;
use dc_mail::report_all;
use dc_talk::{Door, Log};
use ids_core::NoMemory;
use io_edge::Gate;
use run_table::prune;
use std::sync::Wait;

// The rounds of the reporter of a centre through a door.
fn report_rounds<R: Wait, D: Door>(
    rt: &R,
    pace: &Pace,
    door: &mut D,
    n: u8,
    section: u32,
    rounds: u32,
    centre: u8,
    log: &mut Log,
) -> Result<(), NoMemory>
    requires centres { (D.shown door.old).centres ≡ n }
    requires few { n ≤ MOST_CENTRES }
    requires centre { IsBehind (D.shown door.old) centre }
    ensures place { D.place door.new ≡ D.place door.old }
    ensures plays { OnOk result (PlaysReporter n centre section rounds (acting (D.shown door.old) log.old) (acting (D.shown door.new) log.new)) }
{
    'rounds: for before in 0..rounds {
        pace.wait_for(rt, Worker::Reporter, centre, before + 1);
        log.set(section, before + 1);
        report_all(door, n, centre, log)?;
        pace.has_made(Worker::Reporter, centre);
    }
    Ok(())
}

// The rounds of the pruner of a centre through a door.
fn prune_rounds<R: Wait, D: Door>(
    rt: &R,
    pace: &Pace,
    door: &mut D,
    section: u32,
    rounds: u32,
    centre: u8,
    log: &mut Log,
) -> Result<(), NoMemory>
    requires centre { IsBehind (D.shown door.old) centre }
    ensures place { D.place door.new ≡ D.place door.old }
    ensures plays { OnOk result (PlaysPruner centre section rounds (acting (D.shown door.old) log.old) (acting (D.shown door.new) log.new)) }
{
    'rounds: for before in 0..rounds {
        pace.wait_for(rt, Worker::Pruner, centre, before + 1);
        log.set(section, before + 1);
        prune(door, before + 1, centre, log)?;
    }
    Ok(())
}

/// The rounds of the reporter of a centre over its hosts, as a caller of its own. After an `Err`, want of memory, its
/// passes are gone.
pub fn report_through<R: Wait, G: Gate>(
    rt: &R,
    scene: Scene<'_>,
    gate: &G,
    pace: &Pace,
    centre: u8,
    caller: Caller,
) -> Result<Caller, NoMemory>
    requires scene { IsScene scene }
    requires centre { IsCount scene.script.now.n centre }
    requires caller { IsCallerOf scene caller }
    ensures { IfOk result (HasReported scene.entry centre caller) }
{
    let Caller { row, mut log } = caller;
    let script = scene.script;
    let mut door = HostDoor::new(rt, scene.hosts, row, log.actor(), gate);
    report_rounds(
        rt,
        pace,
        &mut door,
        script.n,
        scene.number,
        script.rounds,
        centre,
        &mut log,
    )?;
    let row = door.part();
    Ok(Caller { row, log })
}

/// The rounds of the pruner of a centre over its hosts, as a caller of its own. After an `Err`, want of memory, its
/// passes are gone.
pub fn prune_through<R: Wait, G: Gate>(
    rt: &R,
    scene: Scene<'_>,
    gate: &G,
    pace: &Pace,
    centre: u8,
    caller: Caller,
) -> Result<Caller, NoMemory>
    requires scene { IsScene scene }
    requires centre { IsCount scene.script.now.n centre }
    requires caller { IsCallerOf scene caller }
    ensures { IfOk result (HasPruned scene.entry centre caller) }
{
    let Caller { row, mut log } = caller;
    let script = scene.script;
    let mut door = HostDoor::new(rt, scene.hosts, row, log.actor(), gate);
    prune_rounds(
        rt,
        pace,
        &mut door,
        scene.number,
        script.rounds,
        centre,
        &mut log,
    )?;
    let row = door.part();
    Ok(Caller { row, log })
}
