// What a client has of an object.
ghost use Rattle.std.specs.Prelude.{◌≡◌, ◌≢◌, [], Some, None, IsSome, IfOk, IfErr};
ghost use Rattle.std.specs.Option.{unwrap_or};
ghost use Rattle.dc_talk.specs.Clients.{promoted};

use crate::folded::{seen, stand};
use crate::session::Session;
use dc_talk::{Call, Outcome, Refusal};
use ids_core::ObjectId;
use std::alloc::Global;
use tx_core::{Update, Updates, Value};

impl Session {
    ghost use Rattle.dc_talk.specs.Calls.{Ends, viewed};

    /// What a read of an object gives: of its state at the snapshot, the commits that are pending, and
    /// the open transaction. The object's entry becomes the first of the cache, where there is one. All
    /// else is as it was. Want of memory comes only where the object is there.
    #[tactic(auto, using(client_cache::proofs::Promoting::promoted_absent))]
    pub fn read(&mut self, alloc: Global, object: &ObjectId) -> Result<Value, Refusal>
        ensures got { IfOk result (λ value. Ends self.old self.new (Call.Read object.now) (Outcome.Got value)) }
        ensures refused { IfErr result (λ refusal. refusal ≢ Refusal.NoMemory → Ends self.old self.new (Call.Read object.now) (Outcome.Refused refusal)) }
        ensures short { result ≡ Err Refusal.NoMemory → IsSome (viewed self.old object.now) }
        ensures cache { self.new ≡ record self.old { cache = promoted object.now self.old.vector self.old.cache } }
    {
        let at = self.vector;
        let rank = self.clock + 1;
        let dot = self.next_dot();
        match self.cache.find(object, &at)? {
            None => Err(Refusal::NeedsFetch { object: *object }),
            Some(base) => {
                let updates = updates_of(&self.draft);
                stand(
                    &mut self.folded,
                    object,
                    base,
                    &self.pending,
                    rank,
                    &dot,
                    updates,
                )?;
                Ok(seen(&self.folded, object, base).value(alloc)?)
            }
        }
    }
}

// The updates of the open transaction, none where none is open.
pub(crate) fn updates_of(draft: &Option<Updates>) -> &[Update]
    ensures { result.now ≡ unwrap_or draft.now [] }
{
    match draft {
        Some(updates) => updates.as_slice(),
        None => &[],
    }
}
