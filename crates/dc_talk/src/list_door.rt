// A door that answers from a list, for tests.
ghost use Rattle.std.specs.Prelude.{◌≡◌, true, IfOk, OnOk, OnErr, [], ◌∷◌, ◌++◌, drop};
ghost use Rattle.machine_trail.specs.History.{entry};
ghost use Rattle.dc_talk.specs.Doors.{IsBehind, HasAsked, HasNotAsked, belongs};
ghost use Rattle.dc_talk.specs.ListDoors.{shown_of, next_answer};

use crate::ask::Ask;
use crate::door::Door;
use crate::entry::Entry;
use crate::replies::belongs;
use crate::say::Say;
use ids_core::NoMemory;
use std::alloc::Global;
use std::marker::Model;

// The lists of a door stay shorter than 2^62.
const MOST: usize = (1 << 62) - 1;

// The actor for which it asks.
const ACTOR: u32 = 1;

/// A door for tests, with no centre behind it. It is alone, has the centres 1 to `MOST_CENTRES` and the actor 1,
/// and answers from a prepared list. It keeps the entries that it made, and knows of no others.
#[derive(Drop)]
pub struct ListDoor {
    answers: Vec<Say>,
    used: usize,
    entries: Vec<(u8, Entry)>,
}

impl Model for ListDoor {
    ghost use Rattle.std.specs.Prelude.{◌≤◌, length, drop};
    ghost use Rattle.dc_talk.specs.ListDoors.{ListDoorView};
    ghost use Rattle.tx_core.specs.States.{state_codes};

    ghost Value = { ListDoorView };

    ghost coded = { Prim.hlevel state_codes };

    ghost view = { λ d. record { answers = drop d.used d.answers.items; entries = d.entries.items } };

    ghost invariant = { λ d. d.used ≤ length d.answers.items };
}

impl ListDoor {
    /// A door that gives these answers in their order. It takes no memory.
    pub fn new(alloc: Global, answers: Vec<Say>) -> ListDoor
        ensures { result ≡ record { answers = answers.items; entries = [] } }
    {
        ListDoor {
            answers,
            used: 0,
            entries: Vec::new(alloc),
        }
    }

    /// The entries that it made, in order, each with the number of its centre.
    pub fn entries(&self) -> &[(u8, Entry)]
        ensures { result.now ≡ self.now.entries }
    {
        self.entries.as_slice()
    }

    // The answer that comes next to an ask, in two copies. Nothing is used up.
    fn next(&self, ask: &Ask) -> Result<(Say, Say), NoMemory>
        ensures one { IfOk result (λ says. says.0 ≡ next_answer self.now.answers ask.now) }
        ensures copy { IfOk result (λ says. says.1 ≡ says.0) }
    {
        match self.answers.get(self.used) {
            Some(say) if belongs(ask, say) => Ok((say.copy()?, say.copy()?)),
            _ => Ok((Say::Down, Say::Down)),
        }
    }

    // Puts an entry of a centre behind the others. Nothing changes where memory is refused.
    fn note(&mut self, centre: u8, ask: Ask, say: Say) -> Result<(), NoMemory>
        ensures ok { OnOk result (self.new ≡ record self.old { entries = self.old.entries ++ (centre, entry 1 ask say) ∷ [] }) }
        ensures err { OnErr result (self.new ≡ self.old) }
    {
        let caller = ACTOR;
        self.entries.push((centre, Entry { caller, ask, say }))?;
        Ok(())
    }

    // Uses up the answer that comes next, where there is one.
    fn pass(&mut self)
        ensures { self.new ≡ record self.old { answers = drop 1 self.old.answers } }
    {
        if self.used < self.answers.len() {
            self.used += 1;
        }
    }
}

impl Door for ListDoor {
    type Place = ();

    ghost place = { λ _. tt };

    ghost shown = { shown_of };

    /// Has the centre answer an ask from the list: with the next answer, which is used up, or with `Down` where the
    /// list has ended or the next answer is one that a centre may not give to this ask. After an `Err` nothing was
    /// asked, and no answer is used up.
    fn ask(&mut self, centre: u8, ask: &Ask) -> Result<Say, NoMemory>
        requires { IsBehind (shown_of self.old) centre }
        ensures row { IfOk result (λ say. belongs ask.now say ≡ true) }
        ensures asked { IfOk result (λ say. HasAsked (shown_of self.old) (shown_of self.new) centre (entry 1 ask.now say)) }
        ensures none { OnErr result (HasNotAsked (shown_of self.old) (shown_of self.new)) }
        ensures exact { IfOk result (λ say. say ≡ next_answer self.old.answers ask.now) }
        ensures after { IfOk result (λ say. self.new ≡ record { answers = drop 1 self.old.answers; entries = self.old.entries ++ (centre, entry 1 ask.now say) ∷ [] }) }
        ensures kept { OnErr result (self.new ≡ self.old) }
    {
        if self.entries.len() >= MOST {
            return Err(NoMemory);
        }
        let copy = ask.copy()?;
        let (kept, say) = self.next(ask)?;
        self.note(centre, copy, kept)?;
        self.pass();
        Ok(say)
    }
}
