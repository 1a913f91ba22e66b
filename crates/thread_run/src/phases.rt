// A phase, played with threads.
ghost use Rattle.std.specs.Prelude.{IfOk};
ghost use Rattle.script_core.specs.Rows.{IsPhase};
ghost use Rattle.script_core.specs.Scripts.{header_of, IsInRange};
ghost use Rattle.thread_run.specs.Tables.{IsTableOf, AreLinked, AreNumbered, AreWide, HasPlayed};

use crate::casting::cast_of;
use crate::closing::close_and_part;
use crate::lending::{give_all, lend_all};
use crate::parts::Parts;
use crate::tapping::{close_taps, open_taps};
use dc_door::KeptDoor;
use dc_host::Hosts;
use dc_links::{Laid, Links};
use ids_core::NoMemory;
use io_edge::Gate;
use phase_actors::Scene;
use phase_play::play_in_threads;
use run_table::{Table, deal};
use script_core::{Script, Section};
use std::alloc::Global;
use std::sync::Wait;
use std::thread::Threads;

/// Plays a phase, as the section of a number, with threads: the centres are put under locks, each actor plays its part in
/// a thread, all are joined, the receivers make their closing rounds, and the centres come out with longer trails. The
/// taps are opened for the operator's feeds and the clients' looks, and show then what was fed last. An `Err` is want of
/// memory: all parts are gone.
pub(crate) fn play_phase<R: Threads + Wait + Sync, G: Gate>(
    rt: &R,
    alloc: Global,
    gate: &G,
    script: &Script,
    number: u32,
    section: &Section,
    table: Table,
) -> Result<Table, NoMemory>
    requires range { IsInRange script.now }
    requires phase { IsPhase (header_of script.now) section.now }
    requires table { IsTableOf script.now table }
    requires linked { AreLinked script.now table }
    requires numbered { AreNumbered script.now table }
    requires wide { AreWide script.now table }
    ensures { IfOk result (HasPlayed script.now number section.now table) }
{
    let Table {
        door,
        stubs,
        logs,
        mut posts,
        taps,
    } = table;
    let n = script.n;
    let actors = 1 + script.clients + 4 * u32::from(n);
    let dealt = deal(alloc, script.clients, section)?;
    let (hosts, rows) = Hosts::new(alloc, door.part(), actors)?;
    let Laid {
        links,
        givers,
        takers,
    } = Links::new(alloc, n)?;
    let inlets = lend_all(alloc, &mut posts, n)?;
    let parts = Parts {
        rows,
        logs,
        stubs,
        givers,
        takers,
        inlets,
    };
    let cast = cast_of(alloc, n, script.clients, parts)?;
    let threads = script.clients.min(script.threads);
    let shown = taps.as_slice();
    let opened = open_taps(alloc, rt, n, shown, threads)?;
    let scene = Scene {
        script,
        section,
        number,
        dealt: &dealt,
        hosts: &hosts,
        links: &links,
        taps: shown,
    };
    let (cast, opened) = play_in_threads(rt, alloc, scene, gate, cast, opened)?;
    let parts = close_and_part(rt, alloc, scene, gate, cast)?;
    links.close(rt, parts.givers, parts.takers);
    let kept = hosts.close(alloc, parts.rows)?;
    give_all(&mut posts, n, parts.inlets);
    let taps = close_taps(alloc, taps, opened)?;
    Ok(Table {
        door: KeptDoor::new(kept, 1),
        stubs: parts.stubs,
        logs: parts.logs,
        posts,
        taps,
    })
}
