// What is not worth a thread: workers without rounds, and a phase in which nobody has anything to do.
ghost use Rattle.std.specs.Prelude.{All, IfOk};
ghost use Rattle.std.specs.List.{AllZip};
ghost use Rattle.phase_actors.specs.Scenes.{IsScene};
ghost use Rattle.phase_play.specs.Casts.{IsCrewOf, HasCrewPlayed, IsCast, AreOpen, HaveAllPlayed};

use crate::crews::Crew;
use crate::threads::{Cast, Taps};
use ids_core::NoMemory;
use io_edge::Gate;
use phase_actors::{
    Block, Pace, Scene, operate_through, play_clients, prune_through, receive_through,
    report_through, send_through,
};
use std::alloc::Global;
use std::sync::Wait;

// The workers of a centre, one after another.
fn idle_crew<R: Wait, G: Gate>(
    rt: &R,
    alloc: Global,
    scene: Scene<'_>,
    gate: &G,
    pace: &Pace,
    crew: Crew,
) -> Result<Crew, NoMemory>
    requires scene { IsScene scene }
    requires crew { IsCrewOf scene crew }
    ensures { IfOk result (HasCrewPlayed scene.entry crew) }
{
    let Crew {
        centre,
        sender,
        receiver,
        reporter,
        pruner,
    } = crew;
    Ok(Crew {
        centre,
        sender: send_through(rt, alloc, scene, gate, pace, centre, sender)?,
        receiver: receive_through(rt, alloc, scene, gate, pace, centre, receiver)?,
        reporter: report_through(rt, scene, gate, pace, centre, reporter)?,
        pruner: prune_through(rt, scene, gate, pace, centre, pruner)?,
    })
}

/// The workers of all centres in this thread, one after another: for a phase without rounds, in which none waits for
/// another. After an `Err`, want of memory, their passes and ends are gone.
pub(crate) fn idle_crews<R: Wait, G: Gate>(
    rt: &R,
    alloc: Global,
    scene: Scene<'_>,
    gate: &G,
    pace: &Pace,
    crews: Vec<Crew>,
) -> Result<Vec<Crew>, NoMemory>
    requires scene { IsScene scene }
    requires crews { All (IsCrewOf scene) crews.items }
    ensures { IfOk result (λ played. AllZip (HasCrewPlayed scene.entry) crews.items played.items) }
{
    let mut played = Vec::with_capacity(alloc, crews.len())?;
    'crews: for crew in crews {
        played.push(idle_crew(rt, alloc, scene, gate, pace, crew)?)?;
    }
    Ok(played)
}

/// Whether nobody has anything to do in a phase: there is no round, and no step.
pub(crate) fn is_idle(scene: Scene<'_>) -> bool {
    scene.script.rounds == 0 && scene.section.steps.is_empty()
}

/// All actors of a phase in this thread, one after another: for a phase in which nobody has anything to do. After an
/// `Err`, want of memory, their passes and ends are gone, and so are the taps.
pub(crate) fn play_idle<'f, R: Wait, G: Gate>(
    rt: &R,
    alloc: Global,
    scene: Scene<'_>,
    gate: &G,
    cast: Cast,
    opened: Taps<'f, R>,
) -> Result<(Cast, Taps<'f, R>), NoMemory>
    requires scene { IsScene scene }
    requires cast { IsCast scene cast }
    requires opened { AreOpen scene cast opened.feeders.items opened.rows.items }
    ensures { IfOk result (λ done. HaveAllPlayed scene.entry cast opened.entry.feeders.items opened.entry.rows.items done.0 done.1.feeders.items done.1.rows.items) }
{
    let Cast {
        operator,
        clients,
        crews,
    } = cast;
    let Taps { feeders, rows } = opened;
    let pace = Pace::new(0, 0, scene.script.n);
    let (operator, feeders) = operate_through(rt, alloc, scene, gate, operator, feeders)?;
    let block = Block {
        players: clients,
        readers: Vec::new(alloc),
    };
    let Block {
        players: clients,
        readers: _,
    } = play_clients(rt, alloc, scene, gate, &pace, block)?;
    let crews = idle_crews(rt, alloc, scene, gate, &pace, crews)?;
    Ok((
        Cast {
            operator,
            clients,
            crews,
        },
        Taps { feeders, rows },
    ))
}
