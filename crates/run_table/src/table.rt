// The table of a run, and the steps that change it.
ghost use Rattle.std.specs.Prelude.{◌≡◌, ◌≤◌, ◌<◌, ℕ, ◌+◌, ◌-◌, ◌*◌, List, length, Some, IfOk, OnOk, OnErr, slice_get};
ghost use Rattle.ids_core.specs.declared.limits.TheConstants.{MOST_CENTRES, MOST_CLIENTS};
ghost use Rattle.script_core.specs.Steps.{IsStep, IsOperatorStep};
ghost use Rattle.client_stub.specs.Playing.{StubView, IsLinkBehind};
ghost use Rattle.dc_door.specs.KeptDoors.{shown_of};
ghost use Rattle.script_core.specs.Scripts.{IsInRange};
ghost use Rattle.run_table.specs.Tables.{new_stubs, new_logs, IsNew, HasStepped, HasOperated, HasMadeRound, HasAskedOnce, HasPosts, HasSteppedPart, HasOperatedPart, HasMadeRoundPart, HasAskedOncePart};
ghost use Rattle.run_table.specs.Works.{work_of};
ghost use Rattle.run_book.specs.Moves.{actor_of, operator_does};
ghost use Rattle.dc_talk.specs.declared.log.Deed.{Deed as DeedOf};

use crate::feeding::order_step;
use crate::looking::take_step;
use crate::opening::first_taps;
use crate::works::{Work, make_round};
use client_session::Session;
use client_stub::Stub;
use dc_door::{KeptDoor, centres_of};
use dc_mail::Posts;
use dc_talk::{Ask, Deed, Door, Fate, Log};
use ids_core::NoMemory;
use script_core::{ClientStep, OperatorStep, Script, TapState};
use std::alloc::Global;

/// The centres behind their door, the clients in order, the logs of all actors, what lies on the links, and the taps.
#[derive(Drop)]
pub struct Table {
    /// The door to the centres, which keeps them with their trails.
    pub door: KeptDoor,
    /// The clients, in order of their numbers from 1 on.
    pub stubs: Vec<Stub>,
    /// The logs of all actors, in order of their numbers from 1 on.
    pub logs: Vec<Log>,
    /// What lies on the links between the centres.
    pub posts: Posts,
    /// The tap of each centre, in order of their numbers from 1 on.
    pub taps: Vec<TapState>,
}

// So many clients among `n` centres at first, each with a cache for so many entries.
fn stubs_of(alloc: Global, n: u8, cache: usize, clients: u32) -> Result<Vec<Stub>, NoMemory>
    requires centres { (1 ≤ n) × (n ≤ MOST_CENTRES) }
    requires cache { 1 ≤ cache }
    requires clients { clients ≤ MOST_CLIENTS }
    ensures { IfOk result (λ stubs. stubs.items ≡ new_stubs n cache clients) }
{
    let mut stubs = Vec::new(alloc);
    'clients: for client in 1..clients + 1 {
        let session = Session::new(alloc, client, n, cache)?;
        stubs.push(Stub::new(session))?;
    }
    Ok(stubs)
}

// Sets the fault of a link between `n` centres, where the operator's step does.
fn set_link(posts: &mut Posts, n: u8, step: &OperatorStep)
    requires few { n ≤ MOST_CENTRES }
    requires fits { IsOperatorStep n step.now }
    ensures { (deeds : List DeedOf) → HasPosts n (operator_does step.now) deeds posts.old posts.new }
{
    if let OperatorStep::Link { from, to, fault } = step {
        posts.set(*from, *to, *fault);
    }
}

// So many empty logs.
fn logs_of(alloc: Global, actors: u32) -> Result<Vec<Log>, NoMemory>
    requires { actors ≤ 1 + MOST_CLIENTS + 4 * MOST_CENTRES }
    ensures { IfOk result (λ logs. logs.items ≡ new_logs actors) }
{
    let mut logs = Vec::new(alloc);
    'actors: for actor in 1..actors + 1 {
        logs.push(Log::new(alloc, actor))?;
    }
    Ok(logs)
}

impl Table {
    /// The table of a script's run at first. An `Err` is want of memory.
    pub fn new(alloc: Global, script: &Script) -> Result<Table, NoMemory>
        requires { IsInRange script.now }
        ensures { IfOk result (IsNew script.now) }
    {
        let centres = centres_of(alloc, script.n, script.k, script.limit)?;
        let stubs = stubs_of(alloc, script.n, script.cache as usize, script.clients)?;
        let logs = logs_of(alloc, 1 + script.clients + 4 * u32::from(script.n))?;
        Ok(Table {
            door: KeptDoor::new(centres, 1),
            stubs,
            logs,
            posts: Posts::new(alloc)?,
            taps: first_taps(alloc, script.n, script.taps.as_slice())?,
        })
    }

    /// Has a client take a step, which its log has as one of a section. After an `Err`, want of memory, a part of the
    /// step may be left: in this client, in its log, and at the centres.
    pub fn step(
        &mut self,
        alloc: Global,
        client: u32,
        section: u32,
        number: u32,
        step: &ClientStep,
    ) -> Result<(), NoMemory>
        requires client { (1 ≤ client) × (client ≤ MOST_CLIENTS) }
        requires stub { client ≤ length self.old.stubs.items }
        requires log { client < length self.old.logs.items }
        requires fits { IsStep (length self.old.door.centres) step.now }
        requires linked { (stub : StubView) → slice_get self.old.stubs.items (client - 1) ≡ Some stub → IsLinkBehind (shown_of self.old.door) stub.client }
        ensures steps { OnOk result (HasStepped (record { actor = client + 1; section = section; step = number }) step.now self.old self.new) }
        ensures part { OnErr result (HasSteppedPart (record { actor = client + 1; section = section; step = number }) self.old self.new) }
    {
        self.door.set(client + 1);
        let log = &mut self.logs[client as usize];
        log.set(section, number);
        let stub = &mut self.stubs[(client - 1) as usize];
        let taps = self.taps.as_slice();
        let ended = take_step(alloc, stub, &mut self.door, taps, step, log);
        self.door.histories();
        ended
    }

    /// Has the operator of `n` centres take a step, which its log has as one of a section. After an `Err`, want of
    /// memory, a part of the step may be left: in its log, and at the centres.
    pub fn order(
        &mut self,
        alloc: Global,
        n: u8,
        section: u32,
        number: u32,
        step: &OperatorStep,
    ) -> Result<(), NoMemory>
        requires centres { n ≡ length self.old.door.centres }
        requires few { n ≤ MOST_CENTRES }
        requires log { 1 ≤ length self.old.logs.items }
        requires fits { IsOperatorStep n step.now }
        ensures operates { OnOk result (HasOperated (record { actor = 1; section = section; step = number }) step.now self.old self.new) }
        ensures part { OnErr result (HasOperatedPart (record { actor = 1; section = section; step = number }) self.old self.new) }
    {
        self.door.set(1);
        let log = &mut self.logs[0];
        log.set(section, number);
        match order_step(alloc, &mut self.door, n, &mut self.taps, step, log) {
            Ok(()) => {
                set_link(&mut self.posts, n, step);
                self.door.histories();
                Ok(())
            }
            Err(refused) => {
                self.door.histories();
                Err(refused)
            }
        }
    }

    /// Has a worker of a centre among `n` do its work, with so many clients, in the round of a number of a section. After
    /// an `Err`, want of memory, a part of it may be done: over its links, in its log, and at the centres.
    pub fn work(
        &mut self,
        alloc: Global,
        n: u8,
        clients: u32,
        section: u32,
        number: u32,
        centre: u8,
        does: Work,
    ) -> Result<(), NoMemory>
        requires centres { n ≡ length self.old.door.centres }
        requires few { n ≤ MOST_CENTRES }
        requires clients { clients ≤ MOST_CLIENTS }
        requires centre { (1 ≤ centre) × (centre ≤ n) }
        requires logs { length self.old.logs.items ≡ 1 + clients + 4 * n }
        ensures works { OnOk result (HasMadeRound (record { actor = actor_of clients (work_of centre does); section = section; step = number }) (work_of centre does) self.old self.new) }
        ensures part { OnErr result (HasMadeRoundPart (record { actor = actor_of clients (work_of centre does); section = section; step = number }) centre does self.old self.new) }
    {
        let actor = does.actor(clients, centre);
        self.door.set(actor);
        let log = &mut self.logs[(actor - 1) as usize];
        log.set(section, number);
        let ended = make_round(
            alloc,
            &mut self.posts,
            &mut self.door,
            n,
            number,
            centre,
            does,
            log,
        );
        self.door.histories();
        ended
    }

    /// Has an actor ask a centre, outside of the script, so that no session hears the answer. After an `Err`, want of
    /// memory, the ask was not made, or it was made without a note.
    pub fn ask(&mut self, actor: u32, centre: u8, ask: Ask) -> Result<(), NoMemory>
        requires actor { (1 ≤ actor) × (actor ≤ length self.old.logs.items) }
        requires centre { (1 ≤ centre) × (centre ≤ length self.old.door.centres) }
        ensures asks { OnOk result (HasAskedOnce actor centre ask self.old self.new) }
        ensures part { OnErr result (HasAskedOncePart actor centre ask self.old self.new) }
    {
        self.door.set(actor);
        let log = &mut self.logs[(actor - 1) as usize];
        log.set(0, 0);
        match self.door.ask(centre, &ask) {
            Ok(say) => {
                let fate = Fate::Unheard(say);
                let ended = log.push(Deed::Asked { centre, ask, fate });
                self.door.histories();
                ended
            }
            Err(refused) => {
                self.door.histories();
                Err(refused)
            }
        }
    }
}
