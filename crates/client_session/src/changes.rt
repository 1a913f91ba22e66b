// Changes of objects in the open transaction.
ghost use Rattle.std.specs.Prelude.{◌≡◌, ◌≢◌, ◌≤◌, ◌<◌, ◌++◌, ◌∷◌, [], length, true, Some, None, IsSome, IfOk, IfErr, OnOk, OnErr, IfSome, IfNone};
ghost use Rattle.std.specs.Option.{unwrap_or};
ghost use Rattle.tx_core.specs.Checks.{IsModestUpdate};
ghost use Rattle.client_session.specs.SessionAnswers.{MayBeShort};
ghost use Rattle.dc_talk.specs.Calls.{sort_of_change, is_modest, named, op_of, tags_in};

use crate::folded::{follow, let_go, seen, stand};
use crate::past::leave;
use crate::session::Session;
use crate::views::updates_of;
use dc_talk::{Call, Change, Outcome, Refusal};
use ids_core::{MOST_TAGS, MOST_UPDATES, Mark, Name, ObjectId, OpId, Tags};
use std::alloc::Global;
use tx_core::{Op, Update, Updates, is_small_delta};

impl Session {
    ghost use Rattle.dc_talk.specs.Clients.{promoted, draft_updates};
    ghost use Rattle.dc_talk.specs.Calls.{Ends, over, viewed, look_up_outcome, change_outcome, looked_up};

    /// Changes an object in the open transaction. A change of a set or a map is over the live
    /// identifiers of its word or key in what the client has of the object, and looks it up: the
    /// object's entry becomes the first of the cache, where there is one. After each refusal all else is
    /// as it was. Want of memory comes only where no other refusal stands before or at the look-up.
    pub fn update(
        &mut self,
        alloc: Global,
        object: &ObjectId,
        change: &Change,
    ) -> Result<(), Refusal>
        ensures taken { OnOk result (Ends self.old self.new (Call.Change object.now change.now) Outcome.Fine) }
        ensures refused { IfErr result (λ refusal. refusal ≢ Refusal.NoMemory → Ends self.old self.new (Call.Change object.now change.now) (Outcome.Refused refusal)) }
        ensures memory { result ≡ Err Refusal.NoMemory → self.new ≡ record self.old { cache = looked_up self.old object.now change.now } }
        ensures short { result ≡ Err Refusal.NoMemory → MayBeShort self.old object.now change.now }
    {
        match self.update_refusal(object, change) {
            Some(refusal) => Err(refusal),
            None => match self.op_of(alloc, object, change) {
                Err(refusal) => Err(refusal),
                Ok(op) => {
                    let object = *object;
                    self.push_update(Update { object, op })
                }
            },
        }
    }

    // Puts an update at the end of the open ones, and takes it into what is kept of its object.
    fn push_update(&mut self, update: Update) -> Result<(), Refusal>
        requires is_open { IsSome self.old.draft }
        requires place { length (draft_updates self.old) < MOST_UPDATES }
        requires modest { IsModestUpdate update }
        ensures ok { OnOk result (self.new ≡ record self.old { draft = Some (draft_updates self.old ++ update ∷ []) }) }
        ensures err { IfErr result (λ refusal. (refusal ≡ Refusal.NoMemory) × (self.new ≡ self.old)) }
    {
        let object = update.object;
        let mark = Mark {
            rank: self.clock + 1,
            id: OpId {
                dot: self.next_dot(),
                place: updates_of(&self.draft).len() as u16,
            },
        };
        follow(&mut self.folded, &object, &mark, &update.op);
        leave(&mut self.past, &object);
        let pushed = push(&mut self.draft, update);
        if pushed.is_err() {
            let_go(&mut self.folded, &object);
        }
        pushed
    }

    // Why a change is refused before any look-up.
    fn update_refusal(&self, object: &ObjectId, change: &Change) -> Option<Refusal>
        ensures none { IfNone result (change_outcome self.now object.now change.now ≡ look_up_outcome object.now (named change.now) (viewed self.now object.now)) }
        ensures fits { IfNone result ((sort_of_change change.now ≡ object.now.sort) × (is_modest change.now ≡ true)) }
        ensures open { IfNone result (IsSome self.now.draft × (length (draft_updates self.now) < MOST_UPDATES)) }
        ensures some { IfSome result (λ refusal. Ends self.now self.now (Call.Change object.now change.now) (Outcome.Refused refusal)) }
        ensures known { IfSome result (λ refusal. refusal ≢ Refusal.NoMemory) }
    {
        match &self.draft {
            None => Some(Refusal::NotOpen),
            Some(updates) => {
                if change.sort() != object.sort {
                    Some(Refusal::WrongKind)
                } else if !is_modest(change) {
                    Some(Refusal::DeltaTooLarge)
                } else if MOST_UPDATES <= updates.len() as u64 {
                    Some(Refusal::TooManyUpdates {
                        limit: MOST_UPDATES,
                    })
                } else {
                    None
                }
            }
        }
    }

    // The operation of a change, over what is live of its word or key.
    fn op_of(&mut self, alloc: Global, object: &ObjectId, change: &Change) -> Result<Op, Refusal>
        ensures ok { IfOk result (λ op. (look_up_outcome object.now (named change.now) (viewed self.old object.now) ≡ Outcome.Fine) × (op ≡ op_of change.now (over self.old object.now change.now))) }
        ensures few { IfOk result (λ op. length (over self.old object.now change.now) ≤ MOST_TAGS) }
        ensures refused { IfErr result (λ refusal. refusal ≢ Refusal.NoMemory → look_up_outcome object.now (named change.now) (viewed self.old object.now) ≡ Outcome.Refused refusal) }
        ensures short { result ≡ Err Refusal.NoMemory → IsSome (named change.now) → IsSome (viewed self.old object.now) }
        ensures cache { self.new ≡ record self.old { cache = looked_up self.old object.now change.now } }
    {
        match *change {
            Change::Inc { delta } => Ok(Op::Inc { delta }),
            Change::Write { word } => Ok(Op::Write { word }),
            Change::Add { word } => {
                let over = self.live(alloc, object, &word)?;
                Ok(Op::Add { word, over })
            }
            Change::Remove { word } => {
                let over = self.live(alloc, object, &word)?;
                Ok(Op::Remove { word, over })
            }
            Change::Put { key, word } => {
                let over = self.live(alloc, object, &key)?;
                Ok(Op::Put { key, word, over })
            }
            Change::Erase { key } => {
                let over = self.live(alloc, object, &key)?;
                Ok(Op::Erase { key, over })
            }
        }
    }

    // What is live of a word or key in what the client has of the object.
    fn live(&mut self, alloc: Global, object: &ObjectId, name: &Name) -> Result<Tags, Refusal>
        ensures ok { IfOk result (λ tags. (look_up_outcome object.now (Some name.now) (viewed self.old object.now) ≡ Outcome.Fine) × (tags ≡ tags_in (Some name.now) (viewed self.old object.now))) }
        ensures few { IfOk result (λ tags. length tags ≤ MOST_TAGS) }
        ensures refused { IfErr result (λ refusal. refusal ≢ Refusal.NoMemory → look_up_outcome object.now (Some name.now) (viewed self.old object.now) ≡ Outcome.Refused refusal) }
        ensures short { result ≡ Err Refusal.NoMemory → IsSome (viewed self.old object.now) }
        ensures cache { self.new ≡ record self.old { cache = promoted object.now self.old.vector self.old.cache } }
    {
        let at = self.vector;
        let rank = self.clock + 1;
        let dot = self.next_dot();
        match self.cache.find(object, &at)? {
            None => Err(Refusal::NeedsFetch { object: *object }),
            Some(base) => {
                let updates = updates_of(&self.draft);
                stand(
                    &mut self.folded,
                    object,
                    base,
                    &self.pending,
                    rank,
                    &dot,
                    updates,
                )?;
                few(seen(&self.folded, object, base).tags_of(alloc, name)?)
            }
        }
    }
}

// The identifiers, where they are few enough.
fn few(tags: Tags) -> Result<Tags, Refusal>
    ensures ok { IfOk result (λ same. (same ≡ tags) × (length tags ≤ MOST_TAGS)) }
    ensures refused { IfErr result (λ refusal. (MOST_TAGS < length tags) × (refusal ≡ Refusal.TooManyTags (length tags))) }
{
    let count = tags.as_slice().len() as u64;
    if MOST_TAGS < count {
        Err(Refusal::TooManyTags { count })
    } else {
        Ok(tags)
    }
}

// Whether the delta, if there is one, is small.
fn is_modest(change: &Change) -> bool
    ensures { result ≡ is_modest change.now }
{
    match change {
        Change::Inc { delta } => is_small_delta(*delta),
        _ => true,
    }
}

// Puts an update at the end of the open ones.
fn push(draft: &mut Option<Updates>, update: Update) -> Result<(), Refusal>
    requires { IsSome draft.old }
    ensures ok { OnOk result (draft.new ≡ Some (unwrap_or draft.old [] ++ update ∷ [])) }
    ensures err { IfErr result (λ refusal. (refusal ≡ Refusal.NoMemory) × (draft.new ≡ draft.old)) }
{
    match draft {
        None => Ok(()),
        Some(updates) => match updates.push(update) {
            Ok(()) => Ok(()),
            Err(_) => Err(Refusal::NoMemory),
        },
    }
}
