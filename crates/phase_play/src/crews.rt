// The workers of all centres in a phase.
ghost use Rattle.std.specs.Prelude.{List, IfOk, All};
ghost use Rattle.std.specs.List.{AllZip};
ghost use Rattle.phase_actors.specs.Scenes.{IsScene};
ghost use Rattle.phase_actors.specs.declared.scene.Scene.{Scene as SceneView};
ghost use Rattle.phase_play.specs.declared.crews.Crew.{Crew as CrewView};
ghost use Rattle.phase_play.specs.Casts.{IsCrewOf, HasCrewPlayed};
ghost use Rattle.phase_play.specs.Crews.{WillPlay};

use crate::begun::{
    Begun, PrunerOf, ReceiverOf, ReporterOf, SenderOf, begin_pruner, begin_receiver,
    begin_reporter, begin_sender, end_pruner, end_receiver, end_reporter, end_sender,
};
use ids_core::NoMemory;
use io_edge::Gate;
use phase_actors::{Caller, Pace, ReceiverEnd, Scene, SenderEnd};
use std::alloc::Global;
use std::sync::Wait;
use std::thread::{Scope, Threads};

/// The four workers of a centre, counted from 1.
#[derive(Drop)]
pub struct Crew {
    pub centre: u8,
    pub sender: SenderEnd,
    pub receiver: ReceiverEnd,
    pub reporter: Caller,
    pub pruner: Caller,
}

/// The four workers of a centre that have begun.
#[derive(Drop)]
pub(crate) struct BegunCrew<'a> {
    centre: u8,
    sender: Begun<Result<SenderEnd, NoMemory>, SenderOf<'a>>,
    receiver: Begun<Result<ReceiverEnd, NoMemory>, ReceiverOf<'a>>,
    reporter: Begun<Result<Caller, NoMemory>, ReporterOf<'a>>,
    pruner: Begun<Result<Caller, NoMemory>, PrunerOf<'a>>,
}

// The workers of a centre begin.
fn begin_crew<'s, E: 's, R: Wait + Sync, G: Gate>(
    rt: &'s R,
    alloc: Global,
    within: &'s Scope<'s, E>,
    scene: Scene<'s>,
    gate: &'s G,
    pace: &'s Pace,
    crew: Crew,
) -> BegunCrew<'s>
    requires scene { IsScene scene }
    requires crew { IsCrewOf scene crew }
    ensures { WillPlay scene.entry crew result }
{
    let Crew {
        centre,
        sender,
        receiver,
        reporter,
        pruner,
    } = crew;
    let sender = begin_sender(rt, alloc, within, scene, gate, pace, centre, sender);
    let receiver = begin_receiver(rt, alloc, within, scene, gate, pace, centre, receiver);
    let reporter = begin_reporter(rt, within, scene, gate, pace, centre, reporter);
    let pruner = begin_pruner(rt, within, scene, gate, pace, centre, pruner);
    BegunCrew {
        centre,
        sender,
        receiver,
        reporter,
        pruner,
    }
}

// Waits for what the workers of a centre give.
fn end_crew<R: Threads>(rt: &R, begun: BegunCrew<'_>) -> Result<Crew, NoMemory>
    ensures { (scene : SceneView) (crew : CrewView) → WillPlay scene crew begun.entry → IfOk result (HasCrewPlayed scene crew) }
{
    let BegunCrew {
        centre,
        sender,
        receiver,
        reporter,
        pruner,
    } = begun;
    let sender = end_sender(rt, sender);
    let receiver = end_receiver(rt, receiver);
    let reporter = end_reporter(rt, reporter);
    let pruner = end_pruner(rt, pruner);
    Ok(Crew {
        centre,
        sender: sender?,
        receiver: receiver?,
        reporter: reporter?,
        pruner: pruner?,
    })
}

/// The workers of all centres begin, each in a thread of its own, or here where none can be made. After an `Err`, want of
/// memory, not all of them begin, and none waits for another one.
pub(crate) fn begin_crews<'s, E: 's, R: Wait + Sync, G: Gate>(
    rt: &'s R,
    alloc: Global,
    within: &'s Scope<'s, E>,
    scene: Scene<'s>,
    gate: &'s G,
    pace: &'s Pace,
    crews: Vec<Crew>,
) -> Result<Vec<BegunCrew<'s>>, NoMemory>
    requires scene { IsScene scene }
    requires crews { All (IsCrewOf scene) crews.items }
    ensures { IfOk result (λ begun. AllZip (WillPlay scene.entry) crews.items begun.items) }
{
    let mut begun = Vec::with_capacity(alloc, crews.len())?;
    'crews: for crew in crews {
        begun.push(begin_crew(rt, alloc, within, scene, gate, pace, crew))?;
    }
    Ok(begun)
}

/// Waits for what all workers give. After an `Err`, want of memory, their passes and ends are gone.
pub(crate) fn end_crews<R: Threads>(
    rt: &R,
    alloc: Global,
    begun: Vec<BegunCrew<'_>>,
) -> Result<Vec<Crew>, NoMemory>
    ensures { (scene : SceneView) (crews : List CrewView) → AllZip (WillPlay scene) crews begun.entry.items → IfOk result (λ played. AllZip (HasCrewPlayed scene) crews played.items) }
{
    let mut played = Vec::new(alloc);
    'begun: for crew in begun {
        let ended = end_crew(rt, crew)?;
        played.push(ended)?;
    }
    Ok(played)
}
