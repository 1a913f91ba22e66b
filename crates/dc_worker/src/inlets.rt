// The end of a link at which items are taken.
ghost use Rattle.std.specs.Prelude.{◌≡◌, ◌≤◌, [], ◌∷◌, IfOk, OnOk, OnErr};
ghost use Rattle.std.specs.Option.{option_to_list};
ghost use Rattle.dc_talk.specs.declared.links.Arrival.TheVariants.{Whole};
ghost use Rattle.script_core.specs.Links.{is_nth, clean_inlet, arrived, inlet_after, inlet_set};
ghost use Rattle.dc_worker.specs.Inlets.{HasCount, comes, stays, read_as, lot_items, due_items};

use dc_talk::{Arrival, FrameFault, LinkFault, Sent};
use ids_core::NoMemory;
use link_frames::Frame;
use std::alloc::Global;
use std::marker::Model;

/// The end of a link at which frames are taken: the fault of the link, how many frames were taken since that was set, and
/// what is held, where something is, as the fault left it.
#[derive(Drop)]
pub struct Inlet {
    fault: LinkFault,
    before: u64,
    held: Option<Arrival<Sent>>,
}

impl Model for Inlet {
    ghost use Rattle.std.specs.Option.{option_to_list};
    ghost use Rattle.dc_talk.specs.declared.sent.Sent.{Sent};
    ghost use Rattle.script_core.specs.Links.{Inlet as InletOf};
    ghost use Rattle.dc_worker.specs.Inlets.{HasCount};

    ghost Value = { InletOf Sent };

    ghost view = { λ i. record { fault = i.fault; before = i.before; held = option_to_list i.held } };

    ghost invariant = { λ i. HasCount i.fault };
}

// What becomes of one item by itself: what is due of it, and what is held.
pub(crate) struct Lot {
    pub(crate) first: Option<Arrival<Sent>>,
    pub(crate) again: Option<Arrival<Sent>>,
    pub(crate) kept: Option<Arrival<Sent>>,
}

// What is due, in order, as an item is taken: what comes of it, and then what was held before it.
pub(crate) struct Due {
    pub(crate) first: Option<Arrival<Sent>>,
    pub(crate) again: Option<Arrival<Sent>>,
    pub(crate) held: Option<Arrival<Sent>>,
}

impl Inlet {
    /// The end of a new link, which has no fault.
    pub fn new() -> Self
        ensures { result ≡ clean_inlet }
    {
        Inlet {
            fault: LinkFault::Clean,
            before: 0,
            held: None,
        }
    }

    /// Sets the fault of the link in place of what was set before, and counts its items anew. What is held stays so
    /// until the next item comes.
    pub fn set(&mut self, fault: LinkFault)
        requires { HasCount fault }
        ensures { self.new ≡ inlet_set fault self.old }
    {
        self.fault = fault;
        self.before = 0;
    }

    // What is due as a frame is taken. It is read as the fault leaves it, once, or not at all where nothing comes of it.
    // Nothing changes where memory is refused, or 2^64 - 1 frames were taken.
    pub(crate) fn pass(&mut self, alloc: Global, frame: Frame) -> Result<Due, NoMemory>
        ensures due { IfOk result (λ due. due_items due ≡ arrived self.old (frame ∷ [])) }
        ensures ok { OnOk result (self.new ≡ inlet_after self.old (frame ∷ [])) }
        ensures err { OnErr result (self.new ≡ self.old) }
    {
        let Some(number) = self.before.checked_add(1) else {
            return Err(NoMemory);
        };
        let Lot { first, again, kept } = lot_of(alloc, self.fault, number, frame)?;
        let held = self.held.take();
        self.before = number;
        self.held = kept;
        Ok(Due { first, again, held })
    }

    // Lets go of what is held, where something is.
    pub(crate) fn release(&mut self) -> Option<Arrival<Sent>>
        ensures held { option_to_list result ≡ self.old.held }
        ensures new { self.new ≡ record self.old { held = [] } }
    {
        self.held.take()
    }
}

// What a fault makes of the item of a number, by itself.
fn lot_of(alloc: Global, fault: LinkFault, number: u64, frame: Frame) -> Result<Lot, NoMemory>
    requires { HasCount fault }
    ensures items { IfOk result (λ lot. lot_items lot ≡ comes fault number frame) }
    ensures kept { IfOk result (λ lot. option_to_list lot.kept ≡ stays fault number frame) }
{
    match fault {
        LinkFault::Clean => delivered(alloc, frame),
        LinkFault::Drop { every } => {
            if is_nth(every, number) {
                Ok(dropped())
            } else {
                delivered(alloc, frame)
            }
        }
        LinkFault::Twice { every } => {
            if is_nth(every, number) {
                doubled(alloc, frame)
            } else {
                delivered(alloc, frame)
            }
        }
        LinkFault::Hold { every } => {
            if is_nth(every, number) {
                kept(alloc, frame)
            } else {
                delivered(alloc, frame)
            }
        }
        LinkFault::Cut { every } => {
            if is_nth(every, number) {
                Ok(spoilt(number, frame.read_cut(alloc)?))
            } else {
                delivered(alloc, frame)
            }
        }
        LinkFault::Bend { every } => {
            if is_nth(every, number) {
                Ok(spoilt(number, frame.read_bent(alloc)?))
            } else {
                delivered(alloc, frame)
            }
        }
    }
}

// Whether a number is a multiple of another one.
fn is_nth(every: u64, number: u64) -> bool
    requires { 1 ≤ every }
    ensures { result ≡ is_nth every number }
{
    number % every == 0
}

// An item that is delivered once.
fn delivered(alloc: Global, frame: Frame) -> Result<Lot, NoMemory>
    ensures items { IfOk result (λ lot. lot_items lot ≡ Whole frame ∷ []) }
    ensures kept { IfOk result (λ lot. option_to_list lot.kept ≡ []) }
{
    let item = frame.read(alloc)?;
    Ok(Lot {
        first: Some(Arrival::Whole(item)),
        again: None,
        kept: None,
    })
}

// An item that is not delivered.
fn dropped() -> Lot
    ensures items { lot_items result ≡ [] }
    ensures kept { option_to_list result.kept ≡ [] }
{
    Lot {
        first: None,
        again: None,
        kept: None,
    }
}

// An item that is delivered two times.
fn doubled(alloc: Global, frame: Frame) -> Result<Lot, NoMemory>
    ensures items { IfOk result (λ lot. lot_items lot ≡ Whole frame ∷ Whole frame ∷ []) }
    ensures kept { IfOk result (λ lot. option_to_list lot.kept ≡ []) }
{
    let item = frame.read(alloc)?;
    let again = item.copy()?;
    Ok(Lot {
        first: Some(Arrival::Whole(item)),
        again: Some(Arrival::Whole(again)),
        kept: None,
    })
}

// An item that is held.
fn kept(alloc: Global, frame: Frame) -> Result<Lot, NoMemory>
    ensures items { IfOk result (λ lot. lot_items lot ≡ []) }
    ensures kept { IfOk result (λ lot. option_to_list lot.kept ≡ Whole frame ∷ []) }
{
    let item = frame.read(alloc)?;
    Ok(Lot {
        first: None,
        again: None,
        kept: Some(Arrival::Whole(item)),
    })
}

// The item of a number, as its bytes were read.
fn spoilt(number: u64, read: Result<Sent, FrameFault>) -> Lot
    ensures items { lot_items result ≡ read_as number read ∷ [] }
    ensures kept { option_to_list result.kept ≡ [] }
{
    let arrival = match read {
        Ok(sent) => Arrival::Whole(sent),
        Err(why) => Arrival::Spoilt { item: number, why },
    };
    Lot {
        first: Some(arrival),
        again: None,
        kept: None,
    }
}
