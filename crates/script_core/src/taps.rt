// Taps: what chosen objects are at the base of a centre, shown to readers.
ghost use Rattle.std.specs.Prelude.{◌≡◌, ◌≤◌, IfOk};
ghost use Rattle.ids_core.specs.declared.limits.TheConstants.{MOST_CENTRES};
ghost use Rattle.script_core.specs.Taps.{empty_states, opening};

use dc_talk::{Fed, SharedState};
use ids_core::{NoMemory, ObjectId};
use list_core::List;
use std::alloc::Global;
use tx_core::State;
use vv_core::Vector;

/// The most objects that the taps of a script have together.
pub const MOST_TAPPED: u32 = 8;

/// An object that the tap of a centre shows. Centres are counted from 1.
#[derive(Clone, Copy)]
pub struct Tapped {
    pub centre: u8,
    pub object: ObjectId,
}

/// The objects that taps show, in the order of their lines.
pub type Taps = List<Tapped>;

/// What a tap shows from one feed on: a vector, with the state of each object of the tap there, in the order of the
/// objects. Copies share the states.
#[derive(Drop)]
pub struct Show {
    pub vector: Vector,
    pub states: List<SharedState>,
}

/// What the asks of a feed came to.
#[derive(Drop)]
pub enum Found {
    /// A show.
    Whole(Show),
    /// There is none, since the feed ended so.
    Ended(Fed),
}

/// The tap of a centre as it stands: its objects in their order, and what it shows.
#[derive(Drop)]
pub struct TapState {
    pub objects: List<ObjectId>,
    pub show: Show,
}

// The states of these objects before any operation.
fn empty_states(alloc: Global, objects: &[ObjectId]) -> Result<List<SharedState>, NoMemory>
    ensures { IfOk result (λ states. states ≡ empty_states objects.now) }
{
    let mut states = List::new(alloc);
    'objects: for object in objects {
        let state = State::empty(alloc, object.sort)?;
        states.push(SharedState::new(alloc, state)?)?;
    }
    Ok(states)
}

impl Show {
    /// The show of these objects before any record, among `n` centres.
    pub fn opening(alloc: Global, n: u8, objects: &[ObjectId]) -> Result<Show, NoMemory>
        requires { (1 ≤ n) × (n ≤ MOST_CENTRES) }
        ensures { IfOk result (λ show. show ≡ opening n objects.now) }
    {
        Ok(Show {
            vector: Vector::zero(n),
            states: empty_states(alloc, objects)?,
        })
    }
}
