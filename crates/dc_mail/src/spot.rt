// What lies on one link.
ghost use Rattle.std.specs.Prelude.{◌≡◌, ◌≤◌, [], take, drop, length, min, IfOk, OnOk, OnErr};
ghost use Rattle.dc_talk.specs.Acting.{acting, IsCutShort};
ghost use Rattle.dc_talk.specs.Doors.{IsBehind};
ghost use Rattle.link_frames.specs.Frames.{framed};
ghost use Rattle.script_core.specs.Carrying.{route};
ghost use Rattle.script_core.specs.Links.{clean_inlet};
ghost use Rattle.script_core.specs.Mail.{new_post, post_put, post_set, taken_in_round, due_in_round, post_after_round, due_at_close, post_closed};
ghost use Rattle.script_core.specs.Rounds.{Brings};
ghost use Rattle.dc_worker.specs.Inlets.{HasCount};
ghost use Rattle.dc_worker.specs.Work.{AddsSuch};
ghost use Rattle.dc_mail.specs.Posts.{PostPart};

use dc_talk::{Door, LinkFault, Log, Records, Sent};
use dc_worker::{Inlet, bring, bring_rest};
use ids_core::NoMemory;
use link_frames::{Frame, fits};
use script_core::MOST_MAILED;
use std::alloc::Global;
use std::collections::VecDeque;
use std::marker::Model;
use std::mem::replace;

/// The records that were put on a link and not yet taken, in order, each as the bytes of its frame, and the end at which
/// they are taken.
#[derive(Drop)]
pub(crate) struct Spot {
    waits: VecDeque<Frame>,
    inlet: Inlet,
}

impl Model for Spot {
    ghost use Rattle.script_core.specs.Mail.{Post};

    ghost Value = { Post };

    ghost view = { λ s. record { waits = s.waits.items; inlet = s.inlet } };
}

// Takes the first frames, at most so many. Nothing changes where memory is refused.
fn take_first(waits: &mut VecDeque<Frame>, most: usize) -> Result<Vec<Frame>, NoMemory>
    ensures taken { IfOk result (λ taken. taken.items ≡ take most waits.old.items) }
    ensures rest { OnOk result (waits.new.items ≡ drop most waits.old.items) }
    ensures err { OnErr result (waits.new.items ≡ waits.old.items) }
{
    let count = most.min(waits.len());
    let later = waits.split_off(count)?;
    Ok(Vec::from(replace(waits, later)))
}

// The frames of those of some records that have one.
fn frames_of(alloc: Global, items: &[Sent]) -> Result<Vec<Frame>, NoMemory>
    ensures { IfOk result (λ frames. frames.items ≡ framed items.now) }
{
    let mut frames = Vec::new(alloc);
    'items: for item in items {
        if fits(item) {
            frames.push(Frame::of(alloc, item)?)?;
        }
    }
    Ok(frames)
}

impl Spot {
    /// A link on which nothing lies.
    pub(crate) fn new(alloc: Global) -> Self
        ensures { result ≡ new_post }
    {
        Spot {
            waits: VecDeque::new(alloc),
            inlet: Inlet::new(),
        }
    }

    /// Puts the frames of those of some records that have one behind what lies there. Nothing changes where memory is
    /// refused.
    pub(crate) fn put(&mut self, alloc: Global, items: &Records) -> Result<(), NoMemory>
        ensures ok { OnOk result (self.new ≡ post_put (framed items.now) self.old) }
        ensures err { OnErr result (self.new ≡ self.old) }
    {
        let mut more = VecDeque::from(frames_of(alloc, items.as_slice())?);
        self.waits.append(&mut more)?;
        Ok(())
    }

    /// Sets the fault of the link, and counts its items anew.
    pub(crate) fn set(&mut self, fault: LinkFault)
        requires { HasCount fault }
        ensures { self.new ≡ post_set fault self.old }
    {
        self.inlet.set(fault);
    }

    /// Lends the end at which records are taken. A new one stands there until it is given back.
    pub(crate) fn lend(&mut self) -> Inlet
        ensures inlet { result ≡ self.old.inlet }
        ensures new { self.new ≡ record self.old { inlet = clean_inlet } }
    {
        replace(&mut self.inlet, Inlet::new())
    }

    /// Puts an end in place of the one that stands there.
    pub(crate) fn give_back(&mut self, inlet: Inlet)
        ensures { self.new ≡ record self.old { inlet = inlet } }
    {
        self.inlet = inlet;
    }

    /// Takes what a round takes of the link from a centre, and delivers to one behind the door what comes of it, or notes
    /// what was spoilt.
    pub(crate) fn bring_round<D: Door>(
        &mut self,
        alloc: Global,
        door: &mut D,
        from: u8,
        at: u8,
        log: &mut Log,
    ) -> Result<(), NoMemory>
        requires { IsBehind (D.shown door.old) at }
        ensures place { D.place door.new ≡ D.place door.old }
        ensures brings { OnOk result (AddsSuch (Brings (route from at) (due_in_round self.old)) (acting (D.shown door.old) log.old) (acting (D.shown door.new) log.new)) }
        ensures spot { OnOk result (self.new ≡ post_after_round self.old) }
        ensures short { OnErr result (IsCutShort (acting (D.shown door.old) log.old) (acting (D.shown door.new) log.new)) }
        ensures part { OnErr result (PostPart (route from at) self.old self.new (acting (D.shown door.old) log.old) (acting (D.shown door.new) log.new)) }
    {
        let frames = take_first(&mut self.waits, MOST_MAILED as usize)?;
        bring(alloc, door, from, at, &mut self.inlet, frames, log)
    }

    /// Takes all, and delivers what comes of it and what is held, or notes what was spoilt.
    pub(crate) fn bring_all<D: Door>(
        &mut self,
        alloc: Global,
        door: &mut D,
        from: u8,
        at: u8,
        log: &mut Log,
    ) -> Result<(), NoMemory>
        requires { IsBehind (D.shown door.old) at }
        ensures place { D.place door.new ≡ D.place door.old }
        ensures brings { OnOk result (AddsSuch (Brings (route from at) (due_at_close self.old)) (acting (D.shown door.old) log.old) (acting (D.shown door.new) log.new)) }
        ensures spot { OnOk result (self.new ≡ post_closed self.old) }
        ensures short { OnErr result (IsCutShort (acting (D.shown door.old) log.old) (acting (D.shown door.new) log.new)) }
        ensures part { OnErr result (PostPart (route from at) self.old self.new (acting (D.shown door.old) log.old) (acting (D.shown door.new) log.new)) }
    {
        let frames = Vec::from(replace(&mut self.waits, VecDeque::new(alloc)));
        bring_rest(alloc, door, from, at, &mut self.inlet, frames, log)
    }
}
