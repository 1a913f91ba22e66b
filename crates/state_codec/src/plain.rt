// States taken apart, and made again.
ghost use Rattle.std.specs.Prelude.{◌≡◌, ◌↔◌, Err, IfOk, IsTrue};
ghost use Rattle.tally_core.specs.Listing.{AreStored};
ghost use Rattle.tx_core.specs.declared.state.State.{State as StateOf};
ghost use Rattle.state_codec.specs.declared.state.PlainState.TheVariants.{Set, Map};
ghost use Rattle.state_codec.specs.declared.plain.NotMade.TheVariants.{Unfit};
ghost use Rattle.state_codec.specs.Plain.{plain_of, HasState};

use crate::state::PlainState;
use ids_core::NoMemory;
use list_core::List;
use obj_counter::CounterState;
use obj_map::{MapState, Put};
use obj_register::RegisterState;
use obj_set::SetState;
use std::alloc::Global;
use tally_core::{Cell, Place, are_stored};
use tx_core::State;

/// Why no state was made.
#[derive(Clone, Copy)]
pub enum NotMade {
    /// There is no such state.
    Unfit,
    /// Memory ran out.
    NoMemory,
}

impl PlainState {
    /// A state, taken apart.
    pub fn of(alloc: Global, state: &State) -> Result<PlainState, NoMemory>
        ensures plain { IfOk result (λ plain. plain ≡ plain_of state.now) }
        ensures fit { IfOk result (λ plain. HasState plain) }
    {
        match state {
            State::Counter(sum) => Ok(PlainState::Counter(sum.value())),
            State::Register(last) => Ok(PlainState::Register(last.last())),
            State::Set(set) => Ok(PlainState::Set(List::from_vec(set.tallies(alloc)?))),
            State::Map(map) => Ok(PlainState::Map(List::from_vec(map.tallies(alloc)?))),
        }
    }

    /// Whether it is that of a state. It takes no memory.
    pub fn has_state(&self) -> bool
        ensures { IsTrue result ↔ HasState self.now }
    {
        match self {
            PlainState::Counter(_) => true,
            PlainState::Register(_) => true,
            PlainState::Set(tallies) => are_stored(tallies.as_slice()),
            PlainState::Map(tallies) => are_stored(tallies.as_slice()),
        }
    }

    /// The state that is taken apart into this. An `Err` is `Unfit` exactly where there is none: the places
    /// of tallies do not ascend, a tally is 0, or something is kept where the tally is below 0 or nothing
    /// where it is 1 or more.
    pub fn to_state(&self, alloc: Global) -> Result<State, NotMade>
        ensures made { IfOk result (λ state. plain_of state ≡ self.now) }
        ensures unfit { result ≡ Err Unfit ↔ (HasState self.now → ⊥) }
    {
        match self {
            PlainState::Counter(sum) => Ok(State::Counter(CounterState::of_sum(*sum))),
            PlainState::Register(last) => Ok(State::Register(RegisterState::of_last(*last))),
            PlainState::Set(tallies) => set_of(alloc, tallies.as_slice()),
            PlainState::Map(tallies) => map_of(alloc, tallies.as_slice()),
        }
    }
}

// The state of a set with these tallies.
fn set_of(alloc: Global, tallies: &[(Place, Cell<()>)]) -> Result<State, NotMade>
    ensures made { IfOk result (λ state. plain_of state ≡ Set tallies.now) }
    ensures unfit { result ≡ Err Unfit ↔ (AreStored tallies.now → ⊥) }
{
    if !are_stored(tallies) {
        return Err(NotMade::Unfit);
    }
    match SetState::of_tallies(alloc, tallies) {
        Ok(set) => Ok(State::Set(set)),
        Err(NoMemory) => Err(NotMade::NoMemory),
    }
}

// The state of a map with these tallies.
fn map_of(alloc: Global, tallies: &[(Place, Cell<Put>)]) -> Result<State, NotMade>
    ensures made { IfOk result (λ state. plain_of state ≡ Map tallies.now) }
    ensures unfit { result ≡ Err Unfit ↔ (AreStored tallies.now → ⊥) }
{
    if !are_stored(tallies) {
        return Err(NotMade::Unfit);
    }
    match MapState::of_tallies(alloc, tallies) {
        Ok(map) => Ok(State::Map(map)),
        Err(NoMemory) => Err(NotMade::NoMemory),
    }
}

/// States that are taken apart into the same are the same.
pub fn law_plain()
    ensures { (state other : StateOf) → plain_of state ≡ plain_of other → state ≡ other }
{}
