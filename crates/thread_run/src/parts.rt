// What the actors of a phase have, each kind by itself.
ghost use Rattle.std.specs.Prelude.{OnOk};
ghost use Rattle.thread_run.specs.Casts.{AreNoParts, HasCaller};

use client_stub::Stub;
use dc_centre::Centre;
use dc_talk::Log;
use dc_worker::Inlet;
use host_lock::Pass;
use ids_core::NoMemory;
use link_frames::Frame;
use mail_link::{Giver, Taker};
use phase_actors::Caller;
use std::alloc::Global;

/// Of each actor in order its passes and its log, of each client its stub, and of each centre the ends at which its
/// sender puts, those at which its receiver takes, and the faults of the links to it with what they hold.
#[derive(Drop)]
pub struct Parts {
    pub rows: Vec<Vec<Pass<Centre>>>,
    pub logs: Vec<Log>,
    pub stubs: Vec<Stub>,
    pub givers: Vec<Vec<Giver<Frame>>>,
    pub takers: Vec<Vec<Taker<Frame>>>,
    pub inlets: Vec<Vec<Inlet>>,
}

impl Parts {
    /// No parts.
    pub(crate) fn new(alloc: Global) -> Parts
        ensures { AreNoParts result }
    {
        Parts {
            rows: Vec::new(alloc),
            logs: Vec::new(alloc),
            stubs: Vec::new(alloc),
            givers: Vec::new(alloc),
            takers: Vec::new(alloc),
            inlets: Vec::new(alloc),
        }
    }

    /// The passes and the log of one caller more.
    pub(crate) fn add(&mut self, caller: Caller) -> Result<(), NoMemory>
        ensures { OnOk result (HasCaller self.old caller self.new) }
    {
        let Caller { row, log } = caller;
        self.rows.push(row)?;
        self.logs.push(log)?;
        Ok(())
    }
}
