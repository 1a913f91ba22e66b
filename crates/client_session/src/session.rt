// The session of one client (Zawirski and others, Middleware 2015, sections 3 and 4).
ghost use Rattle.std.specs.Prelude.{◌≡◌, ◌≢◌, ◌≤◌, ◌<◌, ◌↔◌, ◌++◌, ◌∷◌, [], ◌+◌, length, vec_len, vec_capacity, IsSome, IsTrue, IfOk, IfErr, OnOk, OnErr, IfSome, IfNone};
ghost use Rattle.ids_core.specs.declared.limits.TheConstants.{MOST_CENTRES, MOST_CLIENTS};

use crate::folded::{Folded, let_all_go, new_folded};
use crate::past::{Past, leave_all, new_past};
use client_cache::Cache;
use client_pending::Pending;
use dc_talk::{Call, Connection, Outcome, Refusal};
use ids_core::{Dot, MOST_NUMBER, MOST_PENDING, NoMemory};
use std::alloc::Global;
use std::marker::Model;
use tx_core::{Tx, Updates};
use vv_core::Vector;

/// What can be read off a session.
#[derive(Clone, Copy)]
pub struct Facts {
    /// The snapshot that it reads.
    pub vector: Vector,
    /// How many commits it made.
    pub own: u64,
    /// How many of them lie within the snapshot.
    pub mine: u64,
    /// The greatest rank that it was told of or has used.
    pub clock: u64,
    /// Whether a transaction is open.
    pub is_open: bool,
    /// The connected centre.
    pub centre: Option<u8>,
    /// The greatest number of its commits that is known to be there, 0 where none is connected.
    pub sent: u64,
    /// How many commits are pending.
    pub pending: u64,
}

/// One client: its snapshot, its commits, and its cache.
#[derive(Drop)]
pub struct Session {
    pub(crate) client: u32,
    pub(crate) vector: Vector,
    pub(crate) own: u64,
    pub(crate) mine: u64,
    pub(crate) clock: u64,
    // The commits `mine + 1` to `own`.
    pub(crate) pending: Pending,
    pub(crate) link: Option<Connection>,
    pub(crate) draft: Option<Updates>,
    pub(crate) cache: Cache,
    // What the client has of objects that it looked up at this snapshot, where something is pending or open.
    pub(crate) folded: Folded,
    // What it had of objects at the snapshot before.
    pub(crate) past: Past,
}

impl Model for Session {
    ghost use Rattle.tx_core.specs.States.{state_codes};
    ghost use Rattle.dc_talk.specs.Clients.{Client};
    ghost use Rattle.client_session.specs.Sessions.{IsClient};
    ghost use Rattle.client_session.specs.Folded.{Follows, FollowsPast};

    ghost Value = { Client };

    ghost coded = { Prim.hlevel state_codes };

    ghost view = { λ s. record { client = s.client; vector = s.vector; own = s.own; mine = s.mine; clock = s.clock; pending = s.pending; link = s.link; draft = s.draft; cache = s.cache.entries; capacity = s.cache.capacity } };

    ghost invariant = { λ s. let seen : Client = record { client = s.client; vector = s.vector; own = s.own; mine = s.mine; clock = s.clock; pending = s.pending; link = s.link; draft = s.draft; cache = s.cache.entries; capacity = s.cache.capacity } in IsClient seen × Follows s.folded.entries seen × FollowsPast s.past seen };
}

impl Session {
    ghost use Rattle.dc_talk.specs.Clients.{new_client, next_dot, draft_updates};
    ghost use Rattle.dc_talk.specs.Calls.{Ends, committed, begin_outcome, commit_outcome};
    ghost use Rattle.client_session.specs.SessionAnswers.{facts_of};

    /// The session of a client, 1 to 1,024, among `n` centres, 1 to 8, with a cache for so many
    /// entries, 1 or more.
    pub fn new(alloc: Global, client: u32, n: u8, cache: usize) -> Result<Session, NoMemory>
        requires client { (1 ≤ client) × (client ≤ MOST_CLIENTS) }
        requires centres { (1 ≤ n) × (n ≤ MOST_CENTRES) }
        requires cache { 1 ≤ cache }
        ensures { IfOk result (λ session. session ≡ new_client n client cache) }
    {
        Ok(Session {
            client,
            vector: Vector::zero(n),
            own: 0,
            mine: 0,
            clock: 0,
            pending: Pending::new(alloc),
            link: None,
            draft: None,
            cache: Cache::new(alloc, cache)?,
            folded: new_folded(alloc, cache)?,
            past: new_past(alloc, n, cache)?,
        })
    }

    /// The client's number, from 1 to 1,024.
    pub fn client(&self) -> u32
        ensures { result ≡ self.now.client }
    {
        self.client
    }

    /// What can be read off the session.
    pub fn facts(&self) -> Facts
        ensures { result ≡ facts_of self.now }
    {
        let (centre, sent) = match self.link {
            None => (None, 0),
            Some(link) => (Some(link.centre), link.sent),
        };
        Facts {
            vector: self.vector,
            own: self.own,
            mine: self.mine,
            clock: self.clock,
            is_open: self.draft.is_some(),
            centre,
            sent,
            pending: self.pending.as_slice().len() as u64,
        }
    }

    /// Opens a transaction. It takes no memory, and after each refusal the session is as it was.
    pub fn begin(&mut self, alloc: Global) -> Result<(), Refusal>
        ensures taken { OnOk result (Ends self.old self.new Call.Begin Outcome.Fine) }
        ensures refused { IfErr result (λ refusal. Ends self.old self.new Call.Begin (Outcome.Refused refusal)) }
        ensures known { result ≢ Err Refusal.NoMemory }
    {
        match self.begin_refusal() {
            Some(refusal) => Err(refusal),
            None => {
                self.draft = Some(Updates::new(alloc));
                Ok(())
            }
        }
    }

    /// Commits the open transaction: the new number, or `None` where it had no updates. After each
    /// refusal the session is as it was, and the transaction is still open. Want of memory comes only
    /// where a number was due.
    pub fn commit(&mut self) -> Result<Option<u64>, Refusal>
        ensures number { IfOk result (λ number. IfSome number (λ n. Ends self.old self.new Call.Commit (Outcome.Number n))) }
        ensures nothing { IfOk result (λ number. IfNone number (Ends self.old self.new Call.Commit Outcome.Nothing)) }
        ensures refused { IfErr result (λ refusal. refusal ≢ Refusal.NoMemory → Ends self.old self.new Call.Commit (Outcome.Refused refusal)) }
        ensures err { OnErr result (self.new ≡ self.old) }
        ensures short { result ≡ Err Refusal.NoMemory → commit_outcome self.old self.old.draft ≡ Outcome.Number (self.old.own + 1) }
    {
        match self.commit_refusal() {
            Some(refusal) => Err(refusal),
            None => {
                if self.has_updates() {
                    self.share_draft()?;
                    Ok(Some(self.commit_draft()?))
                } else {
                    self.draft = None;
                    Ok(None)
                }
            }
        }
    }

    /// Ends the open transaction, whose updates are gone. It takes no memory, and after the refusal the
    /// session is as it was.
    pub fn abort(&mut self) -> Result<(), Refusal>
        ensures taken { OnOk result (Ends self.old self.new Call.Abort Outcome.Fine) }
        ensures refused { IfErr result (λ refusal. Ends self.old self.new Call.Abort (Outcome.Refused refusal)) }
        ensures known { result ≢ Err Refusal.NoMemory }
    {
        match self.draft.take() {
            None => Err(Refusal::NotOpen),
            Some(updates) => {
                let_all_go(&mut self.folded, updates.as_slice());
                leave_all(&mut self.past, updates.as_slice());
                Ok(())
            }
        }
    }

    fn begin_refusal(&self) -> Option<Refusal>
        ensures none { IfNone result ((begin_outcome self.now ≡ Outcome.Fine) × (self.now.clock < MOST_NUMBER)) }
        ensures some { IfSome result (λ refusal. begin_outcome self.now ≡ Outcome.Refused refusal) }
        ensures known { IfSome result (λ refusal. refusal ≢ Refusal.NoMemory) }
    {
        if self.draft.is_some() {
            Some(Refusal::AlreadyOpen)
        } else if MOST_NUMBER <= self.clock {
            Some(Refusal::ClockFull)
        } else {
            None
        }
    }

    fn commit_refusal(&self) -> Option<Refusal>
        ensures none { IfNone result (IsSome self.now.draft × (draft_updates self.now ≢ [] → length self.now.pending < MOST_PENDING)) }
        ensures some { IfSome result (λ refusal. commit_outcome self.now self.now.draft ≡ Outcome.Refused refusal) }
    {
        match &self.draft {
            None => Some(Refusal::NotOpen),
            Some(updates) => {
                if !updates.is_empty() && MOST_PENDING <= self.pending.as_slice().len() as u64 {
                    Some(Refusal::PendingFull {
                        limit: MOST_PENDING,
                    })
                } else {
                    None
                }
            }
        }
    }

    fn has_updates(&self) -> bool
        ensures { IsTrue result ↔ (draft_updates self.now ≢ []) }
    {
        match &self.draft {
            None => false,
            Some(updates) => !updates.is_empty(),
        }
    }

    // The dot of the open transaction, or of the next one.
    pub(crate) fn next_dot(&self) -> Dot
        ensures { result ≡ next_dot self.now }
    {
        Dot {
            client: self.client,
            number: self.own + 1,
        }
    }

    // Has copies share the open updates. The session stays as it is, also where there is no memory for that.
    fn share_draft(&mut self) -> Result<(), Refusal>
        ensures same { self.new ≡ self.old }
        ensures err { IfErr result (λ refusal. refusal ≡ Refusal.NoMemory) }
    {
        match self.draft.take() {
            None => Ok(()),
            Some(updates) => match updates.share() {
                Ok(updates) => {
                    self.draft = Some(updates);
                    Ok(())
                }
                Err(updates) => {
                    self.draft = Some(updates);
                    Err(Refusal::NoMemory)
                }
            },
        }
    }

    // Makes the open transaction the last commit that is pending: the new number.
    fn commit_draft(&mut self) -> Result<u64, Refusal>
        requires open { IsSome self.old.draft }
        requires place { length self.old.pending < MOST_PENDING }
        ensures ok { IfOk result (λ number. (number ≡ self.old.own + 1) × (self.new ≡ committed self.old)) }
        ensures err { IfErr result (λ refusal. (refusal ≡ Refusal.NoMemory) × (self.new ≡ self.old)) }
    {
        let dot = self.next_dot();
        match self.draft.take() {
            None => unreachable!(),
            Some(updates) => {
                let tx = Tx {
                    dot,
                    rank: self.clock + 1,
                    snap: self.vector,
                    updates,
                };
                match self.pending.push(tx) {
                    Ok(()) => {
                        self.own += 1;
                        self.clock += 1;
                        Ok(self.own)
                    }
                    Err(Tx { updates, .. }) => {
                        self.draft = Some(updates);
                        Err(Refusal::NoMemory)
                    }
                }
            }
        }
    }
}
