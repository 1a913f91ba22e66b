// A way to the centres.
use crate::ask::Ask;
use crate::say::Say;
use ids_core::NoMemory;

/// A way to the centres, numbered from 1, for one actor. Contracts see what it is at, which no ask changes; for
/// whom it asks; whether nobody else asks these centres meanwhile; and of each centre the entries that it made
/// there and those that it knows of.
pub trait Door {
    /// What no ask changes, beside the actor, the number of centres, and whether the door is alone.
    type Place;

    ghost use Rattle.std.specs.Prelude.{◌≡◌, true, IfOk, OnErr};
    ghost use Rattle.machine_trail.specs.History.{entry};
    ghost use Rattle.dc_talk.specs.Doors.{DoorView, IsBehind, HasAsked, HasNotAsked, belongs};

    // What no ask changes.
    ghost place: { Self → Self.Place };

    // The actor, the centres, and the entries that were made and are known.
    ghost shown: { Self → DoorView };

    /// Has a centre answer an ask of the actor: its reply, with which its entry is the last that is known there.
    /// After an `Err` nothing was asked. Each list of a door stays shorter than 2^62 entries: an ask with which one
    /// would grow to that is answered with want of memory.
    fn ask(&mut self, centre: u8, ask: &Ask) -> Result<Say, NoMemory>
        requires { IsBehind (shown self.old) centre }
        ensures place { place self.new ≡ place self.old }
        ensures row { IfOk result (λ say. belongs ask.now say ≡ true) }
        ensures asked { IfOk result (λ say. HasAsked (shown self.old) (shown self.new) centre (entry (shown self.old).actor ask.now say)) }
        ensures none { OnErr result (HasNotAsked (shown self.old) (shown self.new)) };
}
