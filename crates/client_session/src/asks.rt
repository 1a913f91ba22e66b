// What a session asks of a centre.
ghost use Rattle.std.specs.Prelude.{◌≡◌, ◌≢◌, ◌↔◌, ◌&&◌, ℕ, not, length, IfOk, IfSome};
ghost use Rattle.vv_core.specs.Vectors.{covers};
ghost use Rattle.dc_talk.specs.Clients.{same_vector, settled};
ghost use Rattle.dc_talk.specs.Rule.{hello_of, fetch_of, Gives};
ghost use Rattle.client_session.specs.SessionAnswers.{refresh_ask, fetch_ask, commit_ask};

use crate::session::Session;
use dc_talk::{Ask, Refusal, SharedTx};
use ids_core::ObjectId;
use vv_core::Vector;

impl Session {
    /// The ask by which the session comes to a centre. It takes no memory.
    pub fn ask_hello(&self) -> Ask
        ensures ask { result ≡ hello_of self.now }
        ensures gives { (centre : ℕ) → Gives self.now centre result }
    {
        Ask::Hello {
            client: self.client,
            need: self.vector,
        }
    }

    /// The ask for a newer snapshot, and the centre that is asked. It takes no memory.
    pub fn ask_refresh(&self) -> Result<(u8, Ask), Refusal>
        ensures ask { result ≡ refresh_ask self.now }
        ensures gives { IfOk result (λ asked. Gives self.now asked.0 asked.1) }
        ensures not_connected { (result ≡ Err Refusal.NotConnected) ↔ (self.now.link ≡ None) }
    {
        match self.link {
            None => Err(Refusal::NotConnected),
            Some(link) => {
                if self.draft.is_some() {
                    return Err(Refusal::AlreadyOpen);
                }
                let ask = Ask::Refresh {
                    client: self.client,
                    at: self.vector,
                };
                Ok((link.centre, ask))
            }
        }
    }

    /// The ask for an object at the snapshot, and the centre that is asked: for what came to it, where the cache has it at
    /// an earlier snapshot, and else for its state. It takes no memory.
    pub fn ask_fetch(&self, object: &ObjectId) -> Result<(u8, Ask), Refusal>
        ensures ask { result ≡ fetch_ask self.now object.now }
        ensures gives { IfOk result (λ asked. Gives self.now asked.0 asked.1) }
        ensures not_connected { (result ≡ Err Refusal.NotConnected) ↔ (self.now.link ≡ None) }
    {
        match self.link {
            None => Err(Refusal::NotConnected),
            Some(link) => Ok((link.centre, self.fetch_of(object))),
        }
    }

    // The ask for an object at the snapshot.
    fn fetch_of(&self, object: &ObjectId) -> Ask
        ensures { result ≡ fetch_of self.now object.now }
    {
        let (object, at) = (*object, self.vector);
        match self.cache.peek(&object) {
            None => Ask::Fetch { object, at },
            Some(from) => {
                if is_before(&from, &at) {
                    Ask::Delta { object, from, at }
                } else {
                    Ask::Fetch { object, at }
                }
            }
        }
    }

    /// The next commit for the connected centre, and that centre. `None` says that none is left: the
    /// greater of the number that the centre is known to have and that of the snapshot is that of the
    /// last commit. Only the copy of a commit takes memory.
    pub fn ask_commit(&self) -> Result<Option<(u8, Ask)>, Refusal>
        ensures ask { result ≢ Err Refusal.NoMemory → result ≡ commit_ask self.now }
        ensures gives { IfOk result (λ asked. IfSome asked (λ asked. Gives self.now asked.0 asked.1)) }
        ensures not_connected { (result ≡ Err Refusal.NotConnected) ↔ (self.now.link ≡ None) }
        ensures none { IfSome self.now.link (λ link. (result ≡ Ok None) ↔ (settled self.now link ≡ self.now.own)) }
    {
        match self.link {
            None => Err(Refusal::NotConnected),
            Some(link) => {
                let settled = link.sent.max(self.mine);
                match self.pending.as_slice().get((settled - self.mine) as usize) {
                    None => Ok(None),
                    Some(tx) => {
                        let tx = SharedTx::new(self.pending.allocator(), tx.copy()?)?;
                        Ok(Some((link.centre, Ask::Commit { tx })))
                    }
                }
            }
        }
    }
}

// Whether a vector covers another one before it.
fn is_before(from: &Vector, at: &Vector) -> bool
    requires { length at.now ≡ length from.now }
    ensures { result ≡ (covers at.now from.now && not (same_vector from.now at.now)) }
{
    at.covers(from) && *from != *at
}
