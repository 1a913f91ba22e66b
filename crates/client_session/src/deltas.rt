// What a session hears of an object that it has at an earlier snapshot.
ghost use Rattle.std.specs.Prelude.{◌≡◌, ◌&&◌, if◌then◌else◌, true, IsSome, IfOk, OnOk, OnErr};
ghost use Rattle.std.specs.Bool.{OnTrue};
ghost use Rattle.ids_core.specs.Ids.{same_sort};
ghost use Rattle.tx_core.specs.States.{sort_of, fold_of};
ghost use Rattle.dc_talk.specs.Clients.{same_vector, kept, forgotten, entry_of};
ghost use Rattle.dc_talk.specs.Rule.{holds, held, are_of_sort};
ghost use Rattle.client_session.specs.SessionAnswers.{heard_as};

use crate::folded::let_go;
use crate::hears::Heard;
use crate::past::{leave, take_over};
use crate::session::Session;
use ids_core::{Mark, NoMemory, ObjectId, Sort};
use tx_core::{Op, State};
use vv_core::Vector;

impl Session {
    // To a delta: the state of the object, in place of what came to it.
    pub(crate) fn hear_whole(
        &mut self,
        object: &ObjectId,
        from: &Vector,
        at: &Vector,
        state: &State,
    ) -> Result<Heard, NoMemory>
        ensures took { IfOk result (λ it. it ≡ heard_as (same_vector at.now self.old.vector && (holds self.old object.now from.now && same_sort (sort_of state.now) object.now.sort))) }
        ensures ok { OnOk result (self.new ≡ (if same_vector at.now self.old.vector && (holds self.old object.now from.now && same_sort (sort_of state.now) object.now.sort) then record self.old { cache = kept self.old.capacity (record { object = object.now; vector = at.now; state = state.now }) self.old.cache } else self.old)) }
        ensures err { OnErr result (self.new ≡ self.old) }
    {
        if *at == self.vector && self.holds(object, from) && state.sort() == object.sort {
            let copy = state.copy()?;
            self.take(object, at, copy)?;
            Ok(Heard::Took)
        } else {
            Ok(Heard::Ignored)
        }
    }

    // To a delta: the operations that came to the object.
    pub(crate) fn hear_changes(
        &mut self,
        object: &ObjectId,
        from: &Vector,
        at: &Vector,
        tail: &[(Mark, Op)],
    ) -> Result<Heard, NoMemory>
        ensures took { IfOk result (λ it. it ≡ heard_as (same_vector at.now self.old.vector && (holds self.old object.now from.now && are_of_sort object.now.sort tail.now))) }
        ensures ok { OnOk result (self.new ≡ (if same_vector at.now self.old.vector && (holds self.old object.now from.now && are_of_sort object.now.sort tail.now) then record self.old { cache = kept self.old.capacity (record { object = object.now; vector = at.now; state = fold_of (held self.old object.now from.now) tail.now }) self.old.cache } else self.old)) }
        ensures err { OnErr result (self.new ≡ self.old) }
    {
        if *at == self.vector && self.holds(object, from) && are_of_sort(object.sort, tail) {
            self.bring(object, from, at, tail)?;
            Ok(Heard::Took)
        } else {
            Ok(Heard::Ignored)
        }
    }

    // To a delta: the centre has pruned what came to the object.
    pub(crate) fn hear_pruned(&mut self, object: &ObjectId, from: &Vector) -> Heard
        ensures took { result ≡ heard_as (holds self.old object.now from.now) }
        ensures new { self.new ≡ (if holds self.old object.now from.now then record self.old { cache = forgotten object.now self.old.cache } else self.old) }
    {
        if self.holds(object, from) {
            self.cache.forget(object);
            let_go(&mut self.folded, object);
            leave(&mut self.past, object);
            Heard::Took
        } else {
            Heard::Ignored
        }
    }

    // Whether the client has the object at the vector.
    fn holds(&self, object: &ObjectId, from: &Vector) -> bool
        ensures holds { result ≡ holds self.now object.now from.now }
        ensures entry { OnTrue result (IsSome (entry_of object.now self.now.cache)) }
    {
        match self.cache.peek(object) {
            Some(vector) => vector == *from,
            None => false,
        }
    }

    // Folds operations into the state that the client has of the object at the vector, which is at the snapshot then.
    fn bring(
        &mut self,
        object: &ObjectId,
        from: &Vector,
        at: &Vector,
        tail: &[(Mark, Op)],
    ) -> Result<(), NoMemory>
        requires at { at.now ≡ self.old.vector }
        requires holds { holds self.old object.now from.now ≡ true }
        requires entry { IsSome (entry_of object.now self.old.cache) }
        ensures ok { OnOk result (self.new ≡ record self.old { cache = kept self.old.capacity (record { object = object.now; vector = at.now; state = fold_of (held self.old object.now from.now) tail.now }) self.old.cache }) }
        ensures err { OnErr result (self.new ≡ self.old) }
    {
        self.cache.bring(object, at, tail)?;
        take_over(&mut self.past, &mut self.folded, object, from, tail);
        Ok(())
    }
}

// Whether all operations are on objects of the kind.
fn are_of_sort(sort: Sort, tail: &[(Mark, Op)]) -> bool
    ensures { result ≡ are_of_sort sort tail.now }
{
    tail.iter().all(|marked| marked.1.sort() == sort)
}
