// What a session hears of a centre.
ghost use Rattle.std.specs.Prelude.{◌≡◌, ◌≤◌, ◌-◌, ◌&&◌, ◌==◌, if◌then◌else◌, min, max, drop, vec_len, true, IfOk, OnOk, OnErr};
ghost use Rattle.std.specs.Bool.{OnTrue};
ghost use Rattle.ids_core.specs.Ids.{same_sort};
ghost use Rattle.tx_core.specs.States.{sort_of};
ghost use Rattle.dc_talk.specs.Clients.{same_vector, kept};
ghost use Rattle.dc_talk.specs.Rule.{is_linked, sent_through, can_follow, takes, heard};
ghost use Rattle.client_session.specs.SessionAnswers.{heard_as, is_object};

use crate::folded::let_go;
use crate::past::{leave, turn};
use crate::session::Session;
use dc_talk::{Ask, Connection, Say};
use ids_core::{Dot, MOST_NUMBER, NoMemory, ObjectId};
use tx_core::{State, Tx};
use vv_core::Vector;

/// What a session did with an answer.
#[derive(Clone, Copy)]
pub enum Heard {
    /// It took the answer.
    Took,
    /// It ignored the answer, and is as it was.
    Ignored,
}

impl Session {
    /// Hears the answer of a centre to an ask. It takes an answer that it can use, and ignores all
    /// others. Only the state of an object and what came to one take memory; where that is refused the
    /// session is as it was.
    pub fn hear(&mut self, centre: u8, ask: &Ask, say: &Say) -> Result<Heard, NoMemory>
        ensures took { IfOk result (λ it. it ≡ heard_as (takes self.old centre ask.now say.now)) }
        ensures ok { OnOk result (self.new ≡ heard self.old centre ask.now say.now) }
        ensures err { OnErr result ((self.new ≡ self.old) × (is_object say.now ≡ true)) }
    {
        match ask {
            Ask::Hello { client, need: _ } => match say {
                Say::Welcome { through } => Ok(self.hear_welcome(centre, *client, *through)),
                _ => Ok(Heard::Ignored),
            },
            Ask::Refresh { client, at: _ } => match say {
                Say::Snap { vector, mine, top } => {
                    Ok(self.hear_snap(centre, *client, vector, *mine, *top))
                }
                _ => Ok(Heard::Ignored),
            },
            Ask::Fetch { object, at } => match say {
                Say::Object { state } => self.hear_object(object, at, state.as_state()),
                _ => Ok(Heard::Ignored),
            },
            Ask::Delta { object, from, at } => match say {
                Say::Object { state } => self.hear_whole(object, from, at, state.as_state()),
                Say::Changes { tail } => self.hear_changes(object, from, at, tail.as_slice()),
                Say::Pruned { .. } => Ok(self.hear_pruned(object, from)),
                _ => Ok(Heard::Ignored),
            },
            Ask::Commit { tx } => {
                let dot = tx.as_tx().dot;
                match say {
                    Say::Stamped { stamp: _ } => Ok(self.hear_sent(centre, &dot, dot.number)),
                    Say::Known { through } => Ok(self.hear_sent(centre, &dot, *through)),
                    _ => Ok(Heard::Ignored),
                }
            }
            _ => Ok(Heard::Ignored),
        }
    }

    // To a hello: the greatest number of the client's commits that the centre has.
    fn hear_welcome(&mut self, centre: u8, client: u32, through: u64) -> Heard
        ensures took { result ≡ heard_as (client == self.old.client) }
        ensures new { self.new ≡ (if client == self.old.client then record self.old { link = Some (record { centre = centre; sent = min through self.old.own }) } else self.old) }
    {
        if client != self.client {
            return Heard::Ignored;
        }
        let sent = through.min(self.own);
        self.link = Some(Connection { centre, sent });
        Heard::Took
    }

    // To a refresh: a newer snapshot.
    fn hear_snap(&mut self, centre: u8, client: u32, vector: &Vector, mine: u64, top: u64) -> Heard
        ensures took { result ≡ heard_as ((client == self.old.client) && is_linked centre self.old.link && can_follow self.old vector.now mine top) }
        ensures new { self.new ≡ (if (client == self.old.client) && is_linked centre self.old.link && can_follow self.old vector.now mine top then record self.old { vector = vector.now; mine = mine; clock = max self.old.clock top; pending = drop (mine - self.old.mine) self.old.pending } else self.old) }
    {
        if client == self.client && self.is_linked(centre) && self.can_follow(vector, mine, top) {
            let clock = self.clock.max(top);
            if self.is_at(vector, mine) {
                self.clock = clock;
                return Heard::Took;
            }
            let count = (mine - self.mine) as usize;
            turn(
                &mut self.past,
                &mut self.folded,
                &mut self.pending,
                &self.vector,
                count,
            );
            self.vector = *vector;
            self.mine = mine;
            self.clock = clock;
            Heard::Took
        } else {
            Heard::Ignored
        }
    }

    // To a fetch: the state of the object.
    fn hear_object(
        &mut self,
        object: &ObjectId,
        at: &Vector,
        state: &State,
    ) -> Result<Heard, NoMemory>
        ensures took { IfOk result (λ it. it ≡ heard_as (same_vector at.now self.old.vector && same_sort (sort_of state.now) object.now.sort)) }
        ensures ok { OnOk result (self.new ≡ (if same_vector at.now self.old.vector && same_sort (sort_of state.now) object.now.sort then record self.old { cache = kept self.old.capacity (record { object = object.now; vector = at.now; state = state.now }) self.old.cache } else self.old)) }
        ensures err { OnErr result (self.new ≡ self.old) }
    {
        if *at == self.vector && state.sort() == object.sort {
            let copy = state.copy()?;
            self.take(object, at, copy)?;
            Ok(Heard::Took)
        } else {
            Ok(Heard::Ignored)
        }
    }

    // Keeps the state of an object at the snapshot. What was kept folded of the object is let go.
    pub(crate) fn take(
        &mut self,
        object: &ObjectId,
        at: &Vector,
        state: State,
    ) -> Result<(), NoMemory>
        requires { at.now ≡ self.old.vector }
        ensures ok { OnOk result (self.new ≡ record self.old { cache = kept self.old.capacity (record { object = object.now; vector = at.now; state = state }) self.old.cache }) }
        ensures err { OnErr result (self.new ≡ self.old) }
    {
        self.cache.keep(object, at, state)?;
        let_go(&mut self.folded, object);
        leave(&mut self.past, object);
        Ok(())
    }

    // To a commit: the greatest number of its client that the centre is known to have.
    fn hear_sent(&mut self, centre: u8, dot: &Dot, through: u64) -> Heard
        ensures took { result ≡ heard_as ((dot.now.client == self.old.client) && is_linked centre self.old.link) }
        ensures new { self.new ≡ (if (dot.now.client == self.old.client) && is_linked centre self.old.link then record self.old { link = sent_through through self.old.own self.old.link } else self.old) }
    {
        if dot.client == self.client && self.is_linked(centre) {
            if let Some(link) = self.link {
                let sent = link.sent.max(through).min(self.own);
                self.link = Some(Connection {
                    centre: link.centre,
                    sent,
                });
            }
            Heard::Took
        } else {
            Heard::Ignored
        }
    }

    fn is_linked(&self, centre: u8) -> bool
        ensures { result ≡ is_linked centre self.now.link }
    {
        match self.link {
            None => false,
            Some(link) => link.centre == centre,
        }
    }

    // Whether the snapshot is this one.
    fn is_at(&self, vector: &Vector, mine: u64) -> bool
        ensures { OnTrue result ((vector.now ≡ self.now.vector) × (mine ≡ self.now.mine)) }
    {
        *vector == self.vector && mine == self.mine
    }

    // Whether the snapshot can follow this one.
    fn can_follow(&self, vector: &Vector, mine: u64, top: u64) -> bool
        ensures { result ≡ can_follow self.now vector.now mine top }
    {
        self.draft.is_none()
            && vector.width() == self.vector.width()
            && vector.covers(&self.vector)
            && top <= MOST_NUMBER
            && self.mine <= mine
            && mine <= self.own
    }
}
