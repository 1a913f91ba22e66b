// A door to the centres for one of several threads.
ghost use Rattle.std.specs.Prelude.{◌≡◌, ◌<◌, ◌+◌, ◌++◌, ℕ, List, length, true, IfOk, OnErr};
ghost use Rattle.host_lock.specs.Hosts.{IsOf, HasCalled};
ghost use Rattle.machine_trail.specs.History.{entry};
ghost use Rattle.dc_talk.specs.Answers.{IsAnswer};
ghost use Rattle.dc_talk.specs.Doors.{IsBehind, HasAsked, HasNotAsked, belongs};
ghost use Rattle.dc_host.specs.HostDoors.{shown_over, place_over, ArePasses, calls_with, counted, HasCalledAt, HasNotCalledAt};

use crate::hosts::Hosts;
use dc_centre::Centre;
use dc_talk::{Ask, Door, Say};
use host_lock::{Host, Pass};
use ids_core::NoMemory;
use io_edge::{CallToken, Gate};
use std::collections::LinkedList;
use std::marker::Model;
use std::sync::Wait;

/// What no ask through a `HostDoor` changes: the actor, its passes as they were before any call, and how many calls were
/// made with these before there was the door.
pub struct HostPlace {
    pub actor: u32,
    pub passes: LinkedList<Pass<Centre>>,
    pub began: u64,
}

/// A door over hosts, for the thread of one actor: it has a pass of each centre's host, in order, and borrows the hosts
/// and the gate. It is not alone. It made what was called with its passes, and knows what they have seen.
///
/// The gate is told of each call before it and after it, with the number of the call among all that are made with these
/// passes, also through doors before this one, counted from 1 to 2^64 - 1. The door keeps the receipt of its last call:
/// `IsTold` holds between any two asks, so none leaves a call of which the gate was not told. The number of a call that was
/// not made, for want of memory, goes to the next one.
#[derive(Drop)]
pub struct HostDoor<'a, R, G: Gate> {
    rt: &'a R,
    hosts: &'a [Host<Centre>],
    passes: Vec<Pass<Centre>>,
    actor: u32,
    began: u64,
    calls: u64,
    told: Option<G::Receipt>,
    gate: &'a G,
}

impl<'a, R, G: Gate> Model for HostDoor<'a, R, G> {
    ghost use Rattle.std.specs.Prelude.{◌≡◌};
    ghost use Rattle.dc_host.specs.HostDoors.{HostDoorView, ArePasses, IsTold, calls_with, counted};
    ghost use Rattle.tx_core.specs.States.{state_codes};

    ghost Value = { HostDoorView };

    ghost coded = { Prim.hlevel state_codes };

    ghost view = { λ d. record { actor = d.actor; passes = d.passes.items; began = d.began } };

    ghost invariant = { λ d. ArePasses d.hosts.now d.actor d.passes.items × (d.calls ≡ counted (calls_with d.passes.items)) × IsTold G.Receipt.call_of d.actor d.began d.calls d.told };
}

impl<'a, R, G: Gate> HostDoor<'a, R, G> {
    /// The door of an actor to the centres of these hosts, with its passes: one for each host, in order. It takes no
    /// memory.
    pub fn new(
        rt: &'a R,
        hosts: &'a Hosts,
        passes: Vec<Pass<Centre>>,
        actor: u32,
        gate: &'a G,
    ) -> HostDoor<'a, R, G>
        requires { ArePasses hosts.now.hosts actor passes.items }
        ensures actor { result.actor ≡ actor }
        ensures passes { result.passes ≡ passes.items }
        ensures began { result.began ≡ counted (calls_with passes.items) }
    {
        let began = count_calls(passes.as_slice());
        HostDoor {
            rt,
            hosts: hosts.as_slice(),
            passes,
            actor,
            began,
            calls: began,
            told: None,
            gate,
        }
    }

    /// Gives the passes back. It takes no memory.
    pub fn part(self) -> Vec<Pass<Centre>>
        ensures { result.items ≡ self.entry.passes }
    {
        let HostDoor {
            rt: _,
            hosts: _,
            passes,
            actor: _,
            began: _,
            calls: _,
            told,
            gate: _,
        } = self;
        drop(told);
        passes
    }
}

// How many calls were made with passes.
fn count_calls(passes: &[Pass<Centre>]) -> u64
    ensures { result ≡ counted (calls_with passes.now) }
{
    match passes.split_first() {
        None => 0,
        Some((pass, rest)) => pass.calls().saturating_add(count_calls(rest)),
    }
}

// One call with one pass.
fn call_one<R: Wait>(
    rt: &R,
    host: &Host<Centre>,
    pass: &mut Pass<Centre>,
    ask: &Ask,
) -> Result<Say, NoMemory>
    requires { IsOf host.now pass.old }
    ensures called { IfOk result (λ say. HasCalled IsAnswer pass.old ask.now say pass.new) }
    ensures none { OnErr result ((found : List ℕ) × (pass.new ≡ record pass.old { found = pass.old.found ++ found })) }
{
    host.call(rt, pass, ask)
}

// One call with the pass at a place, for which there is a ticket of the next number.
fn call_at<R: Wait, T: CallToken>(
    rt: &R,
    hosts: &[Host<Centre>],
    passes: &mut Vec<Pass<Centre>>,
    _ticket: &T,
    place: usize,
    ask: &Ask,
) -> Result<Say, NoMemory>
    requires passes { (actor : ℕ) × ArePasses hosts.now actor passes.old.items × (T.call_of _ticket.now ≡ (actor, counted (calls_with passes.old.items + 1))) }
    requires place { place < length passes.old.items }
    requires inside { place < length hosts.now }
    ensures called { IfOk result (λ say. HasCalledAt passes.old.items passes.new.items place ask.now say) }
    ensures none { OnErr result (HasNotCalledAt passes.old.items passes.new.items place) }
{
    call_one(rt, &hosts[place], &mut passes[place], ask)
}

impl<'a, R: Wait, G: Gate> Door for HostDoor<'a, R, G> {
    type Place = HostPlace;

    ghost place = { place_over };

    ghost shown = { shown_over };

    /// Has a centre answer an ask of the actor, once its host's turn is free. The answer is the one that is defined
    /// over what the pass has then seen. After an `Err` nothing was asked. A host's history stays shorter than 2^62
    /// entries: an ask with which it would grow to that is answered with want of memory. It may wait for ever.
    fn ask(&mut self, centre: u8, ask: &Ask) -> Result<Say, NoMemory>
        requires { IsBehind (shown_over self.old) centre }
        ensures place { place_over self.new ≡ place_over self.old }
        ensures row { IfOk result (λ say. belongs ask.now say ≡ true) }
        ensures asked { IfOk result (λ say. HasAsked (shown_over self.old) (shown_over self.new) centre (entry self.old.actor ask.now say)) }
        ensures none { OnErr result (HasNotAsked (shown_over self.old) (shown_over self.new)) }
    {
        let step = self.calls.saturating_add(1);
        let ticket = self.gate.before(self.actor, step);
        let said = call_at(
            self.rt,
            self.hosts,
            &mut self.passes,
            &ticket,
            usize::from(centre) - 1,
            ask,
        );
        let receipt = self.gate.after(ticket);
        let say = said?;
        self.calls = step;
        self.told = Some(receipt);
        Ok(say)
    }
}
