// A state of an object as plain data.

use ids_core::{Mark, Name};
use list_core::List;
use obj_map::Put;
use obj_register::RegisterOp;
use tally_core::{Cell, Place};

/// The state of an object, taken apart. `fits` tells which have bytes.
#[derive(Drop)]
pub enum PlainState {
    /// The sum of a counter.
    Counter(i128),
    /// The write of a register with the greatest mark, or none where nothing was written.
    Register(Option<(Mark, RegisterOp)>),
    /// The tallies of a set, by their places.
    Set(List<(Place, Cell<()>)>),
    /// The tallies of a map, by their places, each with what its put keeps.
    Map(List<(Place, Cell<Put>)>),
}

/// An object with its state, taken apart. The kind of the object is that of the state.
#[derive(Drop)]
pub struct PlainPart {
    pub name: Name,
    pub state: PlainState,
}
