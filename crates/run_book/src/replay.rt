// A client, by its log alone.
ghost use Rattle.ids_core.specs.declared.limits.TheConstants.{MOST_CENTRES};
ghost use Rattle.std.specs.Prelude.{◌≡◌, ◌≤◌, ℕ, List, OnOk, OnErr, IfOk};
ghost use Rattle.dc_talk.specs.Clients.{Client, new_client, draft_updates};
ghost use Rattle.dc_talk.specs.Calls.{did};
ghost use Rattle.dc_talk.specs.Rule.{is_linked, can_follow, heard, after};
ghost use Rattle.run_book.specs.Edits.{edits_of};
ghost use Rattle.run_book.specs.Replay.{Shows, IsInRange};

use crate::edits::{Edit, Edits};
use dc_talk::{Ask, Call, Change, Deed, Ended, Fate, NotedOutcome, Outcome, Say};
use ids_core::{MOST_NUMBER, NoMemory, ObjectId};
use std::alloc::Global;
use vv_core::Vector;

/// A client after some notes of its log: what its snapshot, its numbers and its open transaction depend
/// on. It has no cache, since the log tells how each call ended.
#[derive(Drop)]
pub struct Replay {
    pub client: u32,
    /// The snapshot.
    pub vector: Vector,
    /// How many commits there are.
    pub own: u64,
    /// How many of them are within the snapshot.
    pub mine: u64,
    /// The greatest rank that the client was told of or has used.
    pub clock: u64,
    /// The connected centre.
    pub centre: Option<u8>,
    /// The changes of the open transaction.
    pub open: Option<Edits>,
}

impl Replay {
    /// A client among `n` centres, before its first note.
    pub fn new(n: u8, client: u32) -> Replay
        requires { (1 ≤ n) × (n ≤ MOST_CENTRES) }
        ensures { (capacity : ℕ) → Shows result (new_client n client capacity) }
    {
        Replay {
            client,
            vector: Vector::zero(n),
            own: 0,
            mine: 0,
            clock: 0,
            centre: None,
            open: None,
        }
    }

    /// The client after one more deed. An `Err` leaves it as it was.
    pub fn go_on(&mut self, alloc: Global, deed: &Deed) -> Result<(), NoMemory>
        ensures ok { OnOk result ((s : Client) → Shows self.old s → IsInRange s → Shows self.new (after s deed.now)) }
        ensures err { OnErr result (self.new ≡ self.old) }
    {
        match deed {
            Deed::Did { call, outcome } => self.take_call(alloc, call, outcome),
            Deed::Asked { centre, ask, fate } => match fate {
                Fate::Heard(say) => {
                    self.hear(*centre, ask, say);
                    Ok(())
                }
                _ => Ok(()),
            },
            Deed::Told(_) => Ok(()),
            Deed::Spoilt { .. } => Ok(()),
        }
    }

    /// The changes of the open transaction, none where none is open.
    pub fn edits(&self, alloc: Global) -> Result<Edits, NoMemory>
        ensures { IfOk result (λ edits. (s : Client) → Shows self.now s → edits ≡ edits_of (draft_updates s)) }
    {
        match &self.open {
            None => Ok(Edits::new(alloc)),
            Some(edits) => Ok(edits.copy()?),
        }
    }

    // The client after a call that ended so.
    fn take_call(
        &mut self,
        alloc: Global,
        call: &Call,
        outcome: &NotedOutcome,
    ) -> Result<(), NoMemory>
        ensures ok { OnOk result ((s : Client) → Shows self.old s → IsInRange s → Shows self.new (did s call.now outcome.now)) }
        ensures err { OnErr result (self.new ≡ self.old) }
    {
        match call {
            Call::Begin => {
                if matches!(outcome.ended(), Ended::Fine) {
                    self.open = Some(Edits::new(alloc));
                }
                Ok(())
            }
            Call::Change { object, change } => match outcome.ended() {
                Ended::Fine => self.edit(alloc, object, change),
                _ => Ok(()),
            },
            Call::Read { object: _ } => Ok(()),
            Call::Commit => {
                self.commit(outcome);
                Ok(())
            }
            Call::Abort => {
                if matches!(outcome.ended(), Ended::Fine) {
                    self.open = None;
                }
                Ok(())
            }
        }
    }

    // The client after one more change of the open transaction.
    fn edit(&mut self, alloc: Global, object: &ObjectId, change: &Change) -> Result<(), NoMemory>
        ensures ok { OnOk result ((s : Client) → Shows self.old s → Shows self.new (did s (Call.Change object.now change.now) Outcome.Fine)) }
        ensures err { OnErr result (self.new ≡ self.old) }
    {
        match &mut self.open {
            Some(edits) => edits.push(Edit {
                object: *object,
                change: *change,
            })?,
            None => {
                let mut edits = Edits::new(alloc);
                edits.push(Edit {
                    object: *object,
                    change: *change,
                })?;
                self.open = Some(edits);
            }
        }
        Ok(())
    }

    // The client after a commit that ended so. No number of a book that fits passes 2^62.
    fn commit(&mut self, outcome: &NotedOutcome)
        ensures { (s : Client) → Shows self.old s → IsInRange s → Shows self.new (did s Call.Commit outcome.now) }
    {
        match outcome.ended() {
            Ended::Number(_) => {
                self.own = self.own.saturating_add(1);
                self.clock = self.clock.saturating_add(1);
                self.open = None;
            }
            Ended::Nothing => self.open = None,
            _ => {}
        }
    }

    // The client after an answer that it heard of a centre.
    fn hear(&mut self, centre: u8, ask: &Ask, say: &Say)
        ensures { (s : Client) → Shows self.old s → Shows self.new (heard s centre ask.now say.now) }
    {
        match ask {
            Ask::Hello { client, need: _ } => match say {
                Say::Welcome { through: _ } => self.hear_welcome(centre, *client),
                _ => {}
            },
            Ask::Refresh { client, at: _ } => match say {
                Say::Snap { vector, mine, top } => {
                    self.hear_snap(centre, *client, vector, *mine, *top)
                }
                _ => {}
            },
            _ => {}
        }
    }

    // The client after a welcome, to a hello.
    fn hear_welcome(&mut self, centre: u8, client: u32)
        ensures { (s : Client) (need : List ℕ) (through : ℕ) → Shows self.old s → Shows self.new (heard s centre (Ask.Hello client need) (Say.Welcome through)) }
    {
        if client == self.client {
            self.centre = Some(centre);
        }
    }

    // The client after a snapshot, to a refresh.
    fn hear_snap(&mut self, centre: u8, client: u32, vector: &Vector, mine: u64, top: u64)
        ensures { (s : Client) (here : List ℕ) → Shows self.old s → Shows self.new (heard s centre (Ask.Refresh client here) (Say.Snap vector.now mine top)) }
    {
        if client == self.client && self.is_linked(centre) && self.can_follow(vector, mine, top) {
            self.vector = *vector;
            self.mine = mine;
            self.clock = self.clock.max(top);
        }
    }

    fn is_linked(&self, centre: u8) -> bool
        ensures { (s : Client) → Shows self.now s → result ≡ is_linked centre s.link }
    {
        match self.centre {
            None => false,
            Some(here) => here == centre,
        }
    }

    // Whether a snapshot can follow the client's.
    fn can_follow(&self, vector: &Vector, mine: u64, top: u64) -> bool
        ensures { (s : Client) → Shows self.now s → result ≡ can_follow s vector.now mine top }
    {
        self.open.is_none()
            && vector.width() == self.vector.width()
            && vector.covers(&self.vector)
            && top <= MOST_NUMBER
            && self.mine <= mine
            && mine <= self.own
    }
}
