// The workers of a centre in a phase, each in a thread of its own.
ghost use Rattle.std.specs.Prelude.{ℕ, IfOk};
ghost use Rattle.script_core.specs.Steps.{IsCount};
ghost use Rattle.phase_actors.specs.Scenes.{IsScene};
ghost use Rattle.phase_actors.specs.Actors.{IsCallerOf, IsSenderOf, HasSent, IsReceiverOf, HasReceived, HasReported, HasPruned};
ghost use Rattle.phase_actors.specs.declared.scene.Scene.{Scene as SceneView};
ghost use Rattle.phase_actors.specs.declared.senders.SenderEnd.{SenderEnd as SenderEndView};
ghost use Rattle.phase_actors.specs.declared.receivers.ReceiverEnd.{ReceiverEnd as ReceiverEndView};
ghost use Rattle.phase_actors.specs.declared.callers.Caller.{Caller as CallerView};
ghost use Rattle.phase_play.specs.Begun.{WillSend, WillReceive, WillReport, WillPrune};

use ids_core::NoMemory;
use io_edge::Gate;
use phase_actors::{
    Caller, Pace, ReceiverEnd, Scene, SenderEnd, prune_through, receive_through, report_through,
    send_through,
};
use std::alloc::Global;
use std::snapshot::Snapshot;
use std::sync::Wait;
use std::thread::{Promise, PromisedHandle, Scope, Threads};

/// A worker that goes on in a thread of its own, or what it gave where none could be made.
#[derive(Drop)]
pub(crate) enum Begun<T, P: Promise<T>> {
    There(PromisedHandle<T, P>),
    Over(T),
}

/// What the sender of a centre gives at its end.
#[derive(Drop)]
pub(crate) struct SenderOf<'a> {
    scene: Scene<'a>,
    centre: u8,
    sender: Snapshot<SenderEnd>,
}

impl<'a> Promise<Result<SenderEnd, NoMemory>> for SenderOf<'a> {
    ghost use Rattle.std.specs.Prelude.{IfOk};
    ghost use Rattle.phase_actors.specs.Actors.{HasSent};

    ghost kept_by = { λ p r. IfOk r (HasSent p.scene p.centre p.sender.value) };
}

/// What the receiver of a centre gives at its end.
#[derive(Drop)]
pub(crate) struct ReceiverOf<'a> {
    scene: Scene<'a>,
    centre: u8,
    receiver: Snapshot<ReceiverEnd>,
}

impl<'a> Promise<Result<ReceiverEnd, NoMemory>> for ReceiverOf<'a> {
    ghost use Rattle.std.specs.Prelude.{IfOk};
    ghost use Rattle.phase_actors.specs.Actors.{HasReceived};

    ghost kept_by = { λ p r. IfOk r (HasReceived p.scene p.centre p.receiver.value) };
}

/// What the reporter of a centre gives at its end.
#[derive(Drop)]
pub(crate) struct ReporterOf<'a> {
    scene: Scene<'a>,
    centre: u8,
    reporter: Snapshot<Caller>,
}

impl<'a> Promise<Result<Caller, NoMemory>> for ReporterOf<'a> {
    ghost use Rattle.std.specs.Prelude.{IfOk};
    ghost use Rattle.phase_actors.specs.Actors.{HasReported};

    ghost kept_by = { λ p r. IfOk r (HasReported p.scene p.centre p.reporter.value) };
}

/// What the pruner of a centre gives at its end.
#[derive(Drop)]
pub(crate) struct PrunerOf<'a> {
    scene: Scene<'a>,
    centre: u8,
    pruner: Snapshot<Caller>,
}

impl<'a> Promise<Result<Caller, NoMemory>> for PrunerOf<'a> {
    ghost use Rattle.std.specs.Prelude.{IfOk};
    ghost use Rattle.phase_actors.specs.Actors.{HasPruned};

    ghost kept_by = { λ p r. IfOk r (HasPruned p.scene p.centre p.pruner.value) };
}

/// The sender of a centre begins in a thread of its own. Where none can be made it makes its rounds here, and no worker waits
/// for another one from then on.
pub(crate) fn begin_sender<'s, E: 's, R: Wait + Sync, G: Gate>(
    rt: &'s R,
    alloc: Global,
    scope: &'s Scope<'s, E>,
    scene: Scene<'s>,
    gate: &'s G,
    pace: &'s Pace,
    centre: u8,
    sender: SenderEnd,
) -> Begun<Result<SenderEnd, NoMemory>, SenderOf<'s>>
    requires scene { IsScene scene }
    requires centre { IsCount scene.script.now.n centre }
    requires sender { IsSenderOf scene centre sender }
    ensures { WillSend scene.entry centre sender result }
{
    let Scene {
        script,
        section,
        number,
        dealt,
        hosts,
        links,
        taps,
    } = scene;
    let promise = SenderOf {
        scene: Scene {
            script,
            section,
            number,
            dealt,
            hosts,
            links,
            taps,
        },
        centre,
        sender: Snapshot::of(&sender),
    };
    let sends = move || -> Result<SenderEnd, NoMemory>
        requires { IsScene (record { script = script; section = section; number = number; dealt = dealt; hosts = hosts; links = links; taps = taps }) × IsCount script.now.n centre × IsSenderOf (record { script = script; section = section; number = number; dealt = dealt; hosts = hosts; links = links; taps = taps }) centre sender }
        ensures { IfOk result (HasSent (record { script = script.entry; section = section.entry; number = number; dealt = dealt.entry; hosts = hosts.entry; links = links.entry; taps = taps.entry }) centre sender) }
    {
        let scene = Scene {
            script,
            section,
            number,
            dealt,
            hosts,
            links,
            taps,
        };
        pace.ended(send_through(rt, alloc, scene, gate, pace, centre, sender))
    };
    match scope.spawn_with(promise, sends) {
        Ok(handle) => Begun::There(handle),
        Err(refused) => {
            pace.part();
            Begun::Over((refused.value)())
        }
    }
}

/// Waits for what the sender of a centre gives.
pub(crate) fn end_sender<R: Threads>(
    rt: &R,
    begun: Begun<Result<SenderEnd, NoMemory>, SenderOf<'_>>,
) -> Result<SenderEnd, NoMemory>
    ensures { (scene : SceneView) (centre : ℕ) (old : SenderEndView) → WillSend scene centre old begun.entry → IfOk result (HasSent scene centre old) }
{
    match begun {
        Begun::There(handle) => handle.join(rt),
        Begun::Over(given) => given,
    }
}

/// The receiver of a centre begins in a thread of its own. Where none can be made it makes its rounds here, and no worker waits
/// for another one from then on.
pub(crate) fn begin_receiver<'s, E: 's, R: Wait + Sync, G: Gate>(
    rt: &'s R,
    alloc: Global,
    scope: &'s Scope<'s, E>,
    scene: Scene<'s>,
    gate: &'s G,
    pace: &'s Pace,
    centre: u8,
    receiver: ReceiverEnd,
) -> Begun<Result<ReceiverEnd, NoMemory>, ReceiverOf<'s>>
    requires scene { IsScene scene }
    requires centre { IsCount scene.script.now.n centre }
    requires receiver { IsReceiverOf scene centre receiver }
    ensures { WillReceive scene.entry centre receiver result }
{
    let Scene {
        script,
        section,
        number,
        dealt,
        hosts,
        links,
        taps,
    } = scene;
    let promise = ReceiverOf {
        scene: Scene {
            script,
            section,
            number,
            dealt,
            hosts,
            links,
            taps,
        },
        centre,
        receiver: Snapshot::of(&receiver),
    };
    let receives = move || -> Result<ReceiverEnd, NoMemory>
        requires { IsScene (record { script = script; section = section; number = number; dealt = dealt; hosts = hosts; links = links; taps = taps }) × IsCount script.now.n centre × IsReceiverOf (record { script = script; section = section; number = number; dealt = dealt; hosts = hosts; links = links; taps = taps }) centre receiver }
        ensures { IfOk result (HasReceived (record { script = script.entry; section = section.entry; number = number; dealt = dealt.entry; hosts = hosts.entry; links = links.entry; taps = taps.entry }) centre receiver) }
    {
        let scene = Scene {
            script,
            section,
            number,
            dealt,
            hosts,
            links,
            taps,
        };
        pace.ended(receive_through(rt, alloc, scene, gate, pace, centre, receiver))
    };
    match scope.spawn_with(promise, receives) {
        Ok(handle) => Begun::There(handle),
        Err(refused) => {
            pace.part();
            Begun::Over((refused.value)())
        }
    }
}

/// Waits for what the receiver of a centre gives.
pub(crate) fn end_receiver<R: Threads>(
    rt: &R,
    begun: Begun<Result<ReceiverEnd, NoMemory>, ReceiverOf<'_>>,
) -> Result<ReceiverEnd, NoMemory>
    ensures { (scene : SceneView) (centre : ℕ) (old : ReceiverEndView) → WillReceive scene centre old begun.entry → IfOk result (HasReceived scene centre old) }
{
    match begun {
        Begun::There(handle) => handle.join(rt),
        Begun::Over(given) => given,
    }
}

/// The reporter of a centre begins in a thread of its own. Where none can be made it makes its rounds here, and no worker waits
/// for another one from then on.
pub(crate) fn begin_reporter<'s, E: 's, R: Wait + Sync, G: Gate>(
    rt: &'s R,
    scope: &'s Scope<'s, E>,
    scene: Scene<'s>,
    gate: &'s G,
    pace: &'s Pace,
    centre: u8,
    reporter: Caller,
) -> Begun<Result<Caller, NoMemory>, ReporterOf<'s>>
    requires scene { IsScene scene }
    requires centre { IsCount scene.script.now.n centre }
    requires reporter { IsCallerOf scene reporter }
    ensures { WillReport scene.entry centre reporter result }
{
    let Scene {
        script,
        section,
        number,
        dealt,
        hosts,
        links,
        taps,
    } = scene;
    let promise = ReporterOf {
        scene: Scene {
            script,
            section,
            number,
            dealt,
            hosts,
            links,
            taps,
        },
        centre,
        reporter: Snapshot::of(&reporter),
    };
    let reports = move || -> Result<Caller, NoMemory>
        requires { IsScene (record { script = script; section = section; number = number; dealt = dealt; hosts = hosts; links = links; taps = taps }) × IsCount script.now.n centre × IsCallerOf (record { script = script; section = section; number = number; dealt = dealt; hosts = hosts; links = links; taps = taps }) reporter }
        ensures { IfOk result (HasReported (record { script = script.entry; section = section.entry; number = number; dealt = dealt.entry; hosts = hosts.entry; links = links.entry; taps = taps.entry }) centre reporter) }
    {
        let scene = Scene {
            script,
            section,
            number,
            dealt,
            hosts,
            links,
            taps,
        };
        pace.ended(report_through(rt, scene, gate, pace, centre, reporter))
    };
    match scope.spawn_with(promise, reports) {
        Ok(handle) => Begun::There(handle),
        Err(refused) => {
            pace.part();
            Begun::Over((refused.value)())
        }
    }
}

/// Waits for what the reporter of a centre gives.
pub(crate) fn end_reporter<R: Threads>(
    rt: &R,
    begun: Begun<Result<Caller, NoMemory>, ReporterOf<'_>>,
) -> Result<Caller, NoMemory>
    ensures { (scene : SceneView) (centre : ℕ) (old : CallerView) → WillReport scene centre old begun.entry → IfOk result (HasReported scene centre old) }
{
    match begun {
        Begun::There(handle) => handle.join(rt),
        Begun::Over(given) => given,
    }
}

/// The pruner of a centre begins in a thread of its own. Where none can be made it makes its rounds here, and no worker waits
/// for another one from then on.
pub(crate) fn begin_pruner<'s, E: 's, R: Wait + Sync, G: Gate>(
    rt: &'s R,
    scope: &'s Scope<'s, E>,
    scene: Scene<'s>,
    gate: &'s G,
    pace: &'s Pace,
    centre: u8,
    pruner: Caller,
) -> Begun<Result<Caller, NoMemory>, PrunerOf<'s>>
    requires scene { IsScene scene }
    requires centre { IsCount scene.script.now.n centre }
    requires pruner { IsCallerOf scene pruner }
    ensures { WillPrune scene.entry centre pruner result }
{
    let Scene {
        script,
        section,
        number,
        dealt,
        hosts,
        links,
        taps,
    } = scene;
    let promise = PrunerOf {
        scene: Scene {
            script,
            section,
            number,
            dealt,
            hosts,
            links,
            taps,
        },
        centre,
        pruner: Snapshot::of(&pruner),
    };
    let prunes = move || -> Result<Caller, NoMemory>
        requires { IsScene (record { script = script; section = section; number = number; dealt = dealt; hosts = hosts; links = links; taps = taps }) × IsCount script.now.n centre × IsCallerOf (record { script = script; section = section; number = number; dealt = dealt; hosts = hosts; links = links; taps = taps }) pruner }
        ensures { IfOk result (HasPruned (record { script = script.entry; section = section.entry; number = number; dealt = dealt.entry; hosts = hosts.entry; links = links.entry; taps = taps.entry }) centre pruner) }
    {
        let scene = Scene {
            script,
            section,
            number,
            dealt,
            hosts,
            links,
            taps,
        };
        pace.ended(prune_through(rt, scene, gate, pace, centre, pruner))
    };
    match scope.spawn_with(promise, prunes) {
        Ok(handle) => Begun::There(handle),
        Err(refused) => {
            pace.part();
            Begun::Over((refused.value)())
        }
    }
}

/// Waits for what the pruner of a centre gives.
pub(crate) fn end_pruner<R: Threads>(
    rt: &R,
    begun: Begun<Result<Caller, NoMemory>, PrunerOf<'_>>,
) -> Result<Caller, NoMemory>
    ensures { (scene : SceneView) (centre : ℕ) (old : CallerView) → WillPrune scene centre old begun.entry → IfOk result (HasPruned scene centre old) }
{
    match begun {
        Begun::There(handle) => handle.join(rt),
        Begun::Over(given) => given,
    }
}
