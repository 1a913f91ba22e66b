// What is asked of a centre.
ghost use Rattle.std.specs.Prelude.{◌≡◌, ◌≤◌, IfOk};
ghost use Rattle.ids_core.specs.declared.limits.TheConstants.{MOST_CENTRES};
ghost use Rattle.tx_core.specs.Checks.{is_within};
ghost use Rattle.dc_talk.specs.Answers.{are_modest, is_fit_item};

use crate::sent::{SharedRecord, SharedTx};
use ids_core::{MOST_CLIENTS, MOST_RECORDS, NoMemory, ObjectId};
use std::alloc::AllocError;
use tx_core::Record;
use vv_core::Vector;

/// How many records a send asks for at most.
pub const MOST_SENT: u32 = 1_024;

/// How many operations of an object are told at most in place of its state.
pub const MOST_CHANGES: usize = 64;

/// How many hops a record has at most that is delivered.
pub const MOST_HOPS: u8 = 7;

/// One ask of a centre (Middleware 2015, sections 4 and 5). Clients are numbered from 1 to `MOST_CLIENTS`.
#[derive(Drop)]
pub enum Ask {
    /// A client comes, for the first time, again, or from another centre. It has seen `need`.
    Hello {
        client: u32,
        need: Vector,
    },
    /// A client at the snapshot `at` asks for a newer one.
    Refresh {
        client: u32,
        at: Vector,
    },
    /// The state of an object at the snapshot `at`.
    Fetch {
        object: ObjectId,
        at: Vector,
    },
    /// What came to an object between the snapshots `from` and `at`, the second of which covers the first.
    Delta {
        object: ObjectId,
        from: Vector,
        at: Vector,
    },
    /// A transaction that a client has committed.
    Commit {
        tx: SharedTx,
    },
    /// The centre's own records, at most so many, from the one after the first `after`.
    Send {
        after: u64,
        most: u32,
    },
    /// A record that another centre stamped, with the hops that it has at the centre that handed it on.
    Deliver {
        item: SharedRecord,
        hops: u8,
    },
    /// Records of any origin, at most so many, from the one numbered `after + 1` on.
    Relay {
        origin: u8,
        after: u64,
        most: u32,
    },
    /// How many records of each centre are here.
    Report,
    /// What a centre reported.
    Learn {
        from: u8,
        vector: Vector,
    },
    /// The centre is to fold what may be folded, and to let go of own records that all centres have.
    Prune,
    /// The centre is to answer nothing until it is started.
    Stop,
    /// The centre is to answer again.
    Start,
}

impl Clone for Ask {
    ghost is_clone = { λ old new. new ≡ old };

    // Inlined, so that a copy is written to the place where it is kept: an ask is large to hand over.
    #[inline(always)]
    fn clone(&self) -> Result<Ask, AllocError> {
        match self {
            Ask::Hello { client, need } => Ok(Ask::Hello {
                client: *client,
                need: *need,
            }),
            Ask::Refresh { client, at } => Ok(Ask::Refresh {
                client: *client,
                at: *at,
            }),
            Ask::Fetch { object, at } => Ok(Ask::Fetch {
                object: *object,
                at: *at,
            }),
            Ask::Delta { object, from, at } => Ok(Ask::Delta {
                object: *object,
                from: *from,
                at: *at,
            }),
            Ask::Commit { tx } => Ok(Ask::Commit { tx: tx.clone()? }),
            Ask::Send { after, most } => Ok(Ask::Send {
                after: *after,
                most: *most,
            }),
            Ask::Deliver { item, hops } => Ok(Ask::Deliver {
                item: item.clone()?,
                hops: *hops,
            }),
            Ask::Relay {
                origin,
                after,
                most,
            } => Ok(Ask::Relay {
                origin: *origin,
                after: *after,
                most: *most,
            }),
            Ask::Report => Ok(Ask::Report),
            Ask::Learn { from, vector } => Ok(Ask::Learn {
                from: *from,
                vector: *vector,
            }),
            Ask::Prune => Ok(Ask::Prune),
            Ask::Stop => Ok(Ask::Stop),
            Ask::Start => Ok(Ask::Start),
        }
    }
}

impl Ask {
    ghost use Rattle.dc_talk.specs.Answers.{fits};

    /// An equal ask. Nothing changes where memory is refused.
    #[inline(always)]
    pub fn copy(&self) -> Result<Ask, NoMemory>
        ensures { IfOk result (λ copy. copy ≡ self.now) }
    {
        Ok(self.clone()?)
    }

    /// Whether the ask can be made of a centre among `n`: its vectors have `n` entries, its centre is
    /// in 1 to `n`, its client in 1 to `MOST_CLIENTS`, and its transaction passes `Tx::check`; a delta goes
    /// from a vector to one that covers it; a send
    /// or a relay asks for 1 to `MOST_SENT` records; a delivery has at most `MOST_HOPS` hops; and what
    /// is delivered or learned has numbers of at most `MOST_RECORDS`.
    // A centre tests each ask before it answers: the form of the ask is then told apart once for both.
    #[inline(always)]
    pub fn fits(&self, n: u8) -> bool
        requires { (1 ≤ n) × (n ≤ MOST_CENTRES) }
        ensures { result ≡ fits n self.now }
    {
        match self {
            Ask::Hello { client, need } => is_client(*client) && need.width() == n,
            Ask::Refresh { client, at } => is_client(*client) && at.width() == n,
            Ask::Fetch { object: _, at } => at.width() == n,
            Ask::Delta {
                object: _,
                from,
                at,
            } => from.width() == n && at.width() == n && at.covers(from),
            Ask::Commit { tx } => tx.as_tx().check(n).is_ok(),
            Ask::Send { after: _, most } => (1..=MOST_SENT).contains(most),
            Ask::Deliver { item, hops } => is_fit_item(item.as_record(), n) && *hops <= MOST_HOPS,
            Ask::Relay {
                origin,
                after: _,
                most,
            } => (1..=n).contains(origin) && (1..=MOST_SENT).contains(most),
            Ask::Report | Ask::Prune | Ask::Stop | Ask::Start => true,
            Ask::Learn { from, vector } => {
                (1..=n).contains(from) && vector.width() == n && are_modest(vector)
            }
        }
    }
}

// Whether clients have this number.
fn is_client(client: u32) -> bool
    ensures { result ≡ is_within 1 MOST_CLIENTS client }
{
    (1..=MOST_CLIENTS).contains(&client)
}

// Whether a record can be delivered to a centre among `n`.
fn is_fit_item(item: &Record, n: u8) -> bool
    requires { (1 ≤ n) × (n ≤ MOST_CENTRES) }
    ensures { result ≡ is_fit_item n item.now }
{
    (1..=n).contains(&item.stamp.centre)
        && (1..=MOST_RECORDS).contains(&item.stamp.seq)
        && item.deps.width() == n
        && are_modest(&item.deps)
        && item.tx.check(n).is_ok()
}

// Whether no centre is said to have more records than it may stamp.
fn are_modest(vector: &Vector) -> bool
    ensures { result ≡ are_modest vector.now }
{
    vector.as_slice().iter().all(|entry| *entry <= MOST_RECORDS)
}
