// The set.
ghost use Rattle.std.specs.Prelude.{◌≡◌, ◌↔◌, ℕ, List, IfOk, OnOk, OnErr};
ghost use Rattle.std.specs.FinMap.{entries};
ghost use Rattle.std.specs.List.Sorted.{IsStrictlySortedBy};
ghost use Rattle.list_core.specs.Members.{In};
ghost use Rattle.ids_core.specs.declared.ids.Mark.{Mark};
ghost use Rattle.ids_core.specs.Kinds.{Distinct};
ghost use Rattle.ids_core.specs.Orders.{name_cmp};
ghost use Rattle.tally_core.specs.Changes.{LiveByOps};
ghost use Rattle.tally_core.specs.Live.{IsLiveName};
ghost use Rattle.tally_core.specs.Live.{live_ids, live_names};
ghost use Rattle.tally_core.specs.Listing.{AreStored};
ghost use Rattle.obj_set.specs.Sets.{Set, does, step, IsStateOf};

use ids_core::{Kind, Mark, Name, NoMemory, Tags};
use std::alloc::Global;
use std::marker::Model;
use tally_core::{Cell, Place, Tallies};

/// An add or a remove of a word, and the identifiers of its adds that were live where it was issued.
/// An add carries them too, so that a word that is added often keeps few live identifiers.
#[derive(Drop)]
pub struct SetOp {
    pub adds: bool,
    pub word: Name,
    pub over: Tags,
}

/// The state of an observed-remove set (Shapiro and others, "A comprehensive study of Convergent and
/// Commutative Replicated Data Types", INRIA RR-7506, 2011), in which an add wins over a remove that has
/// not seen it. It is seen as its tallies: for each word and identifier, plus one for the add and minus
/// one for each operation that is over it, so that a remove may be taken in before the add that it saw.
#[derive(Drop)]
pub struct SetState {
    tallies: Tallies<()>,
}

impl Model for SetState {
    ghost use Rattle.obj_set.specs.Sets.{Set, set_code};

    ghost Value = { Set };

    ghost coded = { set_code };

    ghost view = { λ s. s.tallies };
}

impl SetState {
    /// Takes in an operation of these parts. A tally that would pass an end of `i64` is want of memory
    /// too. An `Err` leaves the state as it was. Time: logarithmic in the number of tallies for each
    /// identifier that is named, plus what insertions move.
    pub fn change(
        &mut self,
        mark: &Mark,
        adds: bool,
        word: &Name,
        over: &Tags,
    ) -> Result<(), NoMemory>
        ensures ok { OnOk result (self.new ≡ step self.old (mark.now, record { adds = adds; word = word.now; over = over.now })) }
        ensures err { OnErr result (self.new ≡ self.old) }
    {
        let add = if adds { Some(()) } else { None };
        self.tallies.change(word, &mark.id, add, over)
    }

    /// The words with a live identifier, ascending.
    pub fn value(&self, alloc: Global) -> Result<Vec<Name>, NoMemory>
        ensures words { IfOk result (λ list. list.items ≡ live_names self.now) }
        ensures ascending { IfOk result (λ list. IsStrictlySortedBy name_cmp list.items) }
        ensures exact { IfOk result (λ list. (word : List ℕ) → In word list.items ↔ IsLiveName self.now word) }
    {
        self.tallies.names(alloc)
    }

    /// The live identifiers of a word: those with a tally of 1 or more.
    pub fn tags_of(&self, alloc: Global, word: &Name) -> Result<Tags, NoMemory>
        ensures { IfOk result (λ list. list ≡ live_ids self.now word.now) }
    {
        self.tallies.live(alloc, word)
    }

    /// The places with a tally, ascending, each with the tally, which is not 0; something is kept exactly
    /// where it is 1 or more.
    pub fn tallies(&self, alloc: Global) -> Result<Vec<(Place, Cell<()>)>, NoMemory>
        ensures list { IfOk result (λ list. list.items ≡ entries self.now) }
        ensures stored { IfOk result (λ list. AreStored list.items) }
    {
        self.tallies.entries(alloc)
    }

    /// The state of a set with those tallies. `tally_core::are_stored` tells which lists are those of some
    /// state.
    pub fn of_tallies(alloc: Global, list: &[(Place, Cell<()>)]) -> Result<SetState, NoMemory>
        requires { AreStored list.now }
        ensures { IfOk result (λ state. entries state ≡ list.now) }
    {
        Ok(SetState {
            tallies: Tallies::of_entries(alloc, list)?,
        })
    }
}

impl Kind for SetState {
    ghost use Rattle.obj_set.specs.Sets.{start, step, IsStateOf};
    ghost use Rattle.obj_set.specs.Laws.{step_commutes, step_defined};

    type Op = SetOp;

    type State = SetState;

    ghost start = { start };

    ghost step = { step };

    ghost is_state_of = { IsStateOf };

    fn empty(alloc: Global) -> Result<SetState, NoMemory> {
        Ok(SetState {
            tallies: Tallies::new(alloc),
        })
    }

    fn fold(state: &mut SetState, mark: &Mark, op: &SetOp) -> Result<(), NoMemory> {
        state.change(mark, op.adds, &op.word, &op.over)
    }

    fn copy(state: &SetState) -> Result<SetState, NoMemory> {
        Ok(SetState {
            tallies: state.tallies.copy()?,
        })
    }

    ghost commutes = { step_commutes };

    ghost defined = { step_defined };
}

/// In the state of operations with different identifiers no tally is 2 or more. An identifier is
/// among the tags of a word exactly where its add is among the operations and none of them on that
/// word is over it, and a word is in the set exactly where it has such an identifier.
pub fn law_live()
    ensures { (ops : List (Mark × SetOp)) (s : Set) → Distinct ops → IsStateOf ops s → LiveByOps does ops s }
{}
