// What lies on the links between centres.
ghost use Rattle.std.specs.Prelude.{◌≡◌, ◌<◌, ◌*◌, IfOk, OnOk, OnErr};
ghost use Rattle.ids_core.specs.declared.limits.TheConstants.{MOST_CENTRES};
ghost use Rattle.dc_talk.specs.Acting.{acting, IsCutShort};
ghost use Rattle.dc_talk.specs.Doors.{IsBehind};
ghost use Rattle.link_frames.specs.Frames.{framed};
ghost use Rattle.script_core.specs.Carrying.{route};
ghost use Rattle.script_core.specs.Links.{clean_inlet};
ghost use Rattle.script_core.specs.Mail.{post_put, post_set, due_in_round, post_after_round, due_at_close, post_closed};
ghost use Rattle.script_core.specs.Rounds.{Brings};
ghost use Rattle.dc_worker.specs.Inlets.{HasCount};
ghost use Rattle.dc_worker.specs.Work.{AddsSuch};
ghost use Rattle.dc_mail.specs.Posts.{place_of, post_at, IsCentre, new_posts, HasSet, PostsPart};

use crate::spot::Spot;
use dc_talk::{Door, LinkFault, Log, Records};
use dc_worker::Inlet;
use ids_core::{MOST_CENTRES, NoMemory};
use std::alloc::Global;
use std::marker::Model;

/// What lies on the links between centres, which are counted from 1 to 8: for each of them the frames of the records that
/// were put and not yet taken, in order, and the end at which they are taken. Contracts see the links by their places, and
/// the records on them.
#[derive(Drop)]
pub struct Posts {
    spots: Vec<Spot>,
}

impl Model for Posts {
    ghost use Rattle.std.specs.Prelude.{◌≡◌, ◌*◌, length, List};
    ghost use Rattle.ids_core.specs.declared.limits.TheConstants.{MOST_CENTRES};
    ghost use Rattle.script_core.specs.Mail.{Post};

    ghost Value = { List Post };

    ghost view = { λ p. p.spots.items };

    ghost invariant = { λ p. length p.spots.items ≡ MOST_CENTRES * MOST_CENTRES };
}

// The place of the link from one centre to another.
fn place_of(from: u8, to: u8) -> usize
    requires from { IsCentre from }
    requires to { IsCentre to }
    ensures place { result ≡ place_of from to }
    ensures within { result < MOST_CENTRES * MOST_CENTRES }
{
    let row = usize::from(from - 1) * (MOST_CENTRES as usize);
    row + usize::from(to - 1)
}

impl Posts {
    /// Links on which nothing lies. An `Err` is want of memory.
    pub fn new(alloc: Global) -> Result<Posts, NoMemory>
        ensures { IfOk result (λ posts. posts ≡ new_posts) }
    {
        let mut spots = Vec::new(alloc);
        'places: for _place in 0..u16::from(MOST_CENTRES) * u16::from(MOST_CENTRES) {
            spots.push(Spot::new(alloc))?;
        }
        Ok(Posts { spots })
    }

    /// Sets the fault of the link from one centre to another, and counts its items anew.
    pub fn set(&mut self, from: u8, to: u8, fault: LinkFault)
        requires from { IsCentre from }
        requires to { IsCentre to }
        requires fault { HasCount fault }
        ensures { HasSet from to (post_set fault (post_at self.old from to)) self.old self.new }
    {
        self.spots[place_of(from, to)].set(fault);
    }

    /// Lends the end of the link from one centre to another at which records are taken. A new end stands there until it is
    /// given back.
    pub fn lend(&mut self, from: u8, to: u8) -> Inlet
        requires from { IsCentre from }
        requires to { IsCentre to }
        ensures inlet { result ≡ (post_at self.old from to).inlet }
        ensures posts { HasSet from to (record (post_at self.old from to) { inlet = clean_inlet }) self.old self.new }
    {
        self.spots[place_of(from, to)].lend()
    }

    /// Puts an end to the link from one centre to another, in place of the one that stands there.
    pub fn give_back(&mut self, from: u8, to: u8, inlet: Inlet)
        requires from { IsCentre from }
        requires to { IsCentre to }
        ensures { HasSet from to (record (post_at self.old from to) { inlet = inlet }) self.old self.new }
    {
        self.spots[place_of(from, to)].give_back(inlet);
    }

    // Puts the frames of those of some records that have one on the link from one centre to another, behind what lies
    // there. Nothing changes where memory is refused.
    pub(crate) fn put(
        &mut self,
        alloc: Global,
        from: u8,
        to: u8,
        items: &Records,
    ) -> Result<(), NoMemory>
        requires from { IsCentre from }
        requires to { IsCentre to }
        ensures ok { OnOk result (HasSet from to (post_put (framed items.now) (post_at self.old from to)) self.old self.new) }
        ensures err { OnErr result (self.new ≡ self.old) }
    {
        self.spots[place_of(from, to)].put(alloc, items)
    }

    // Takes from a link what a round takes, and delivers what comes of it to the centre at its end, or notes what was
    // spoilt.
    pub(crate) fn bring_round<D: Door>(
        &mut self,
        alloc: Global,
        door: &mut D,
        from: u8,
        to: u8,
        log: &mut Log,
    ) -> Result<(), NoMemory>
        requires from { IsCentre from }
        requires to { IsCentre to }
        requires behind { IsBehind (D.shown door.old) to }
        ensures place { D.place door.new ≡ D.place door.old }
        ensures brings { OnOk result (AddsSuch (Brings (route from to) (due_in_round (post_at self.old from to))) (acting (D.shown door.old) log.old) (acting (D.shown door.new) log.new)) }
        ensures posts { OnOk result (HasSet from to (post_after_round (post_at self.old from to)) self.old self.new) }
        ensures short { OnErr result (IsCutShort (acting (D.shown door.old) log.old) (acting (D.shown door.new) log.new)) }
        ensures part { OnErr result (PostsPart from to self.old self.new (acting (D.shown door.old) log.old) (acting (D.shown door.new) log.new)) }
    {
        self.spots[place_of(from, to)].bring_round(alloc, door, from, to, log)
    }

    // Takes all from a link, and delivers what comes of it and what is held to the centre at its end, or notes what was
    // spoilt.
    pub(crate) fn bring_all<D: Door>(
        &mut self,
        alloc: Global,
        door: &mut D,
        from: u8,
        to: u8,
        log: &mut Log,
    ) -> Result<(), NoMemory>
        requires from { IsCentre from }
        requires to { IsCentre to }
        requires behind { IsBehind (D.shown door.old) to }
        ensures place { D.place door.new ≡ D.place door.old }
        ensures brings { OnOk result (AddsSuch (Brings (route from to) (due_at_close (post_at self.old from to))) (acting (D.shown door.old) log.old) (acting (D.shown door.new) log.new)) }
        ensures posts { OnOk result (HasSet from to (post_closed (post_at self.old from to)) self.old self.new) }
        ensures short { OnErr result (IsCutShort (acting (D.shown door.old) log.old) (acting (D.shown door.new) log.new)) }
        ensures part { OnErr result (PostsPart from to self.old self.new (acting (D.shown door.old) log.old) (acting (D.shown door.new) log.new)) }
    {
        self.spots[place_of(from, to)].bring_all(alloc, door, from, to, log)
    }
}
