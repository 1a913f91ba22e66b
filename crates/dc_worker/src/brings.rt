// What comes of the items of a link: records delivered to a centre, whatever it answers, and notes of what was spoilt.
ghost use Rattle.std.specs.Prelude.{◌≡◌, ◌⊎◌, [], ◌∷◌, OnOk, OnErr};
ghost use Rattle.std.specs.Option.{option_to_list};
ghost use Rattle.dc_talk.specs.Acting.{acting, IsCutShort};
ghost use Rattle.dc_talk.specs.Doors.{IsBehind};
ghost use Rattle.script_core.specs.Carrying.{route};
ghost use Rattle.script_core.specs.Links.{arrivals, arrived, inlet_after, inlet_closed};
ghost use Rattle.script_core.specs.Rounds.{Brings};
ghost use Rattle.dc_worker.specs.Work.{AddsSuch};
ghost use Rattle.dc_worker.specs.Inlets.{due_items};
ghost use Rattle.dc_worker.specs.Brings.{BringsPart};

use crate::deliveries::deliver;
use crate::inlets::{Due, Inlet};
use dc_talk::{Arrival, Deed, Door, Log, Sent};
use ids_core::NoMemory;
use link_frames::Frame;
use std::alloc::Global;

/// Delivers to a centre behind the door what comes of frames as they are taken from the link from a centre, whatever the
/// centre answers, and notes those that were spoilt; more frames may come later. An `Err` is want of memory, or that more
/// than 2^64 - 1 frames were taken since the fault was set: what comes of the first frames was delivered, and of the next
/// one maybe a part.
pub fn bring<D: Door>(
    alloc: Global,
    door: &mut D,
    from: u8,
    at: u8,
    inlet: &mut Inlet,
    frames: Vec<Frame>,
    log: &mut Log,
) -> Result<(), NoMemory>
    requires { IsBehind (D.shown door.old) at }
    ensures place { D.place door.new ≡ D.place door.old }
    ensures brings { OnOk result (AddsSuch (Brings (route from at) (arrived inlet.old frames.items)) (acting (D.shown door.old) log.old) (acting (D.shown door.new) log.new)) }
    ensures inlet { OnOk result (inlet.new ≡ inlet_after inlet.old frames.items) }
    ensures short { OnErr result (IsCutShort (acting (D.shown door.old) log.old) (acting (D.shown door.new) log.new)) }
    ensures part { OnErr result (BringsPart (route from at) frames.items inlet.old inlet.new (acting (D.shown door.old) log.old) (acting (D.shown door.new) log.new)) }
{
    'frames: for frame in frames {
        bring_one(alloc, door, from, at, inlet, frame, log)?;
    }
    Ok(())
}

/// The same where no more frames come: what is held at the end is delivered too.
pub fn bring_rest<D: Door>(
    alloc: Global,
    door: &mut D,
    from: u8,
    at: u8,
    inlet: &mut Inlet,
    frames: Vec<Frame>,
    log: &mut Log,
) -> Result<(), NoMemory>
    requires { IsBehind (D.shown door.old) at }
    ensures place { D.place door.new ≡ D.place door.old }
    ensures brings { OnOk result (AddsSuch (Brings (route from at) (arrivals inlet.old frames.items)) (acting (D.shown door.old) log.old) (acting (D.shown door.new) log.new)) }
    ensures inlet { OnOk result (inlet.new ≡ inlet_closed inlet.old frames.items) }
    ensures short { OnErr result (IsCutShort (acting (D.shown door.old) log.old) (acting (D.shown door.new) log.new)) }
    ensures part { OnErr result (BringsPart (route from at) frames.items inlet.old inlet.new (acting (D.shown door.old) log.old) (acting (D.shown door.new) log.new)) }
{
    bring(alloc, door, from, at, inlet, frames, log)?;
    bring_held(door, from, at, inlet, log)
}

/// Delivers to a centre behind the door what is held at the end of the link from a centre, whatever the centre answers.
/// It is held no more then. An `Err` is want of memory: it may have been delivered.
pub fn bring_held<D: Door>(
    door: &mut D,
    from: u8,
    at: u8,
    inlet: &mut Inlet,
    log: &mut Log,
) -> Result<(), NoMemory>
    requires { IsBehind (D.shown door.old) at }
    ensures place { D.place door.new ≡ D.place door.old }
    ensures brings { OnOk result (AddsSuch (Brings (route from at) inlet.old.held) (acting (D.shown door.old) log.old) (acting (D.shown door.new) log.new)) }
    ensures inlet { inlet.new ≡ record inlet.old { held = [] } }
    ensures short { OnErr result (IsCutShort (acting (D.shown door.old) log.old) (acting (D.shown door.new) log.new)) }
{
    let held = inlet.release();
    bring_some(door, from, at, held, log)
}

/// Delivers to a centre behind the door what comes of one frame as it is taken from the link from a centre, whatever the
/// centre answers, and notes it where it was spoilt; more frames may come later. The door is asked when the frame was
/// read. An `Err` is want of memory, or that 2^64 - 1 frames were taken since the fault was set: a part of it may have
/// been delivered.
pub fn bring_one<D: Door>(
    alloc: Global,
    door: &mut D,
    from: u8,
    at: u8,
    inlet: &mut Inlet,
    frame: Frame,
    log: &mut Log,
) -> Result<(), NoMemory>
    requires { IsBehind (D.shown door.old) at }
    ensures place { D.place door.new ≡ D.place door.old }
    ensures brings { OnOk result (AddsSuch (Brings (route from at) (arrived inlet.old (frame ∷ []))) (acting (D.shown door.old) log.old) (acting (D.shown door.new) log.new)) }
    ensures inlet { OnOk result (inlet.new ≡ inlet_after inlet.old (frame ∷ [])) }
    ensures short { OnErr result (IsCutShort (acting (D.shown door.old) log.old) (acting (D.shown door.new) log.new)) }
    ensures left { OnErr result ((inlet.new ≡ inlet.old) ⊎ (inlet.new ≡ inlet_after inlet.old (frame ∷ []))) }
{
    let due = inlet.pass(alloc, frame)?;
    bring_due(door, from, at, due, log)
}

// What is due.
fn bring_due<D: Door>(
    door: &mut D,
    from: u8,
    at: u8,
    due: Due,
    log: &mut Log,
) -> Result<(), NoMemory>
    requires { IsBehind (D.shown door.old) at }
    ensures place { D.place door.new ≡ D.place door.old }
    ensures brings { OnOk result (AddsSuch (Brings (route from at) (due_items due)) (acting (D.shown door.old) log.old) (acting (D.shown door.new) log.new)) }
    ensures short { OnErr result (IsCutShort (acting (D.shown door.old) log.old) (acting (D.shown door.new) log.new)) }
{
    let Due { first, again, held } = due;
    bring_some(door, from, at, first, log)?;
    bring_some(door, from, at, again, log)?;
    bring_some(door, from, at, held, log)
}

// What arrives, where something does.
fn bring_some<D: Door>(
    door: &mut D,
    from: u8,
    at: u8,
    arrival: Option<Arrival<Sent>>,
    log: &mut Log,
) -> Result<(), NoMemory>
    requires { IsBehind (D.shown door.old) at }
    ensures place { D.place door.new ≡ D.place door.old }
    ensures brings { OnOk result (AddsSuch (Brings (route from at) (option_to_list arrival)) (acting (D.shown door.old) log.old) (acting (D.shown door.new) log.new)) }
    ensures short { OnErr result (IsCutShort (acting (D.shown door.old) log.old) (acting (D.shown door.new) log.new)) }
{
    match arrival {
        None => Ok(()),
        Some(Arrival::Whole(item)) => {
            deliver(door, at, item, log)?;
            Ok(())
        }
        Some(Arrival::Spoilt { item, why }) => log.push(Deed::Spoilt { from, item, why }),
    }
}
