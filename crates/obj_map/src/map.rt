// The map.
ghost use Rattle.std.specs.Prelude.{◌≡◌, ◌↔◌, ℕ, List, map, IfOk, OnOk, OnErr};
ghost use Rattle.std.specs.FinMap.{entries};
ghost use Rattle.std.specs.List.Sorted.{IsStrictlySortedBy};
ghost use Rattle.list_core.specs.Members.{In};
ghost use Rattle.ids_core.specs.declared.ids.Mark.{Mark};
ghost use Rattle.ids_core.specs.Kinds.{Distinct};
ghost use Rattle.ids_core.specs.Orders.{name_cmp};
ghost use Rattle.tally_core.specs.Changes.{LiveByOps};
ghost use Rattle.tally_core.specs.Live.{live_ids};
ghost use Rattle.tally_core.specs.Listing.{AreStored};
ghost use Rattle.obj_map.specs.Maps.{Map, does, step, pairs, IsStateOf, IsGreatestPut};

use crate::put::{Put, greatest};
use ids_core::{Kind, Mark, Name, NoMemory, Tags};
use std::alloc::Global;
use std::marker::Model;
use tally_core::{Cell, Place, Tallies};

/// A put of a word at a key, or an erase of the key where there is no word, and the identifiers of the
/// key's puts that were live where it was issued. A put carries them too, so that a key that is written
/// often keeps few live identifiers.
#[derive(Drop)]
pub struct MapOp {
    pub key: Name,
    pub word: Option<Name>,
    pub over: Tags,
}

/// The state of a map whose keys are an observed-remove set and whose words are last-writer-wins
/// registers (Shapiro and others, "A comprehensive study of Convergent and Commutative Replicated Data
/// Types", INRIA RR-7506, 2011). It is seen as its tallies: for each key and identifier, plus one for
/// the put and minus one for each operation that is over it, with the rank and word of the put exactly
/// where the tally is 1 or more.
#[derive(Drop)]
pub struct MapState {
    tallies: Tallies<Put>,
}

impl Model for MapState {
    ghost use Rattle.obj_map.specs.Maps.{Map, map_code};

    ghost Value = { Map };

    ghost coded = { map_code };

    ghost view = { λ s. s.tallies };
}

impl MapState {
    /// Takes in an operation of these parts. A tally that would pass an end of `i64` is want of memory
    /// too. An `Err` leaves the state as it was. Time: logarithmic in the number of tallies for each
    /// identifier that is named, plus what insertions move.
    pub fn change(
        &mut self,
        mark: &Mark,
        key: &Name,
        word: Option<Name>,
        over: &Tags,
    ) -> Result<(), NoMemory>
        ensures ok { OnOk result (self.new ≡ step self.old (mark.now, record { key = key.now; word = word; over = over.now })) }
        ensures err { OnErr result (self.new ≡ self.old) }
    {
        let rank = mark.rank;
        let add = match word {
            Some(word) => Some(Put { rank, word }),
            None => None,
        };
        self.tallies.change(key, &mark.id, add, over)
    }

    /// The keys with a live put, ascending, each with the word of the greatest live put: by rank, then
    /// identifier.
    pub fn value(&self, alloc: Global) -> Result<Vec<(Name, Name)>, NoMemory>
        ensures pairs { IfOk result (λ list. list.items ≡ pairs self.now) }
        ensures ascending { IfOk result (λ list. IsStrictlySortedBy name_cmp (map (λ p. p.0) list.items)) }
    {
        let mut list = Vec::new(alloc);
        let keys = self.tallies.names(alloc)?;
        for key in &keys {
            let puts = self.tallies.kept(alloc, key)?;
            if let Some(word) = greatest(&puts) {
                list.push((*key, word))?;
            }
        }
        Ok(list)
    }

    /// The live identifiers of a key: those with a tally of 1 or more.
    pub fn tags_of(&self, alloc: Global, key: &Name) -> Result<Tags, NoMemory>
        ensures { IfOk result (λ list. list ≡ live_ids self.now key.now) }
    {
        self.tallies.live(alloc, key)
    }

    /// The places with a tally, ascending, each with the tally, which is not 0, and the put, which is kept
    /// exactly where the tally is 1 or more.
    pub fn tallies(&self, alloc: Global) -> Result<Vec<(Place, Cell<Put>)>, NoMemory>
        ensures list { IfOk result (λ list. list.items ≡ entries self.now) }
        ensures stored { IfOk result (λ list. AreStored list.items) }
    {
        self.tallies.entries(alloc)
    }

    /// The state of a map with those tallies. `tally_core::are_stored` tells which lists are those of some
    /// state.
    pub fn of_tallies(alloc: Global, list: &[(Place, Cell<Put>)]) -> Result<MapState, NoMemory>
        requires { AreStored list.now }
        ensures { IfOk result (λ state. entries state ≡ list.now) }
    {
        Ok(MapState {
            tallies: Tallies::of_entries(alloc, list)?,
        })
    }
}

impl Kind for MapState {
    ghost use Rattle.obj_map.specs.Maps.{start, step, IsStateOf};
    ghost use Rattle.obj_map.specs.Laws.{step_commutes, step_defined};

    type Op = MapOp;

    type State = MapState;

    ghost start = { start };

    ghost step = { step };

    ghost is_state_of = { IsStateOf };

    fn empty(alloc: Global) -> Result<MapState, NoMemory> {
        Ok(MapState {
            tallies: Tallies::new(alloc),
        })
    }

    fn fold(state: &mut MapState, mark: &Mark, op: &MapOp) -> Result<(), NoMemory> {
        state.change(mark, &op.key, op.word, &op.over)
    }

    fn copy(state: &MapState) -> Result<MapState, NoMemory> {
        Ok(MapState {
            tallies: state.tallies.copy()?,
        })
    }

    ghost commutes = { step_commutes };

    ghost defined = { step_defined };
}

/// In the state of operations with different identifiers no tally is 2 or more. An identifier is
/// among the tags of a key exactly where its put is among the operations and none of them on that key
/// is over it, and what it keeps are that put's rank and word.
pub fn law_live()
    ensures { (ops : List (Mark × MapOp)) (s : Map) → Distinct ops → IsStateOf ops s → LiveByOps does ops s }
{}

/// In the state of operations with different identifiers a key has a word exactly where it is the word
/// of a live put of the key that no other live put of the key exceeds by its mark.
pub fn law_value()
    ensures { (ops : List (Mark × MapOp)) (s : Map) → Distinct ops → IsStateOf ops s → (key word : List ℕ) → In (key, word) (pairs s) ↔ IsGreatestPut ops key word }
{}
