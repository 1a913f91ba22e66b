// Which transactions are taken.
ghost use Rattle.std.specs.Prelude.{◌≡◌, ◌≤◌, ◌<◌, ◌↔◌, Some, None, OnOk, IfErr, IfSome, IsOk, length, nat_lt, position};
ghost use Rattle.std.specs.List.{list_all};
ghost use Rattle.tx_core.specs.Checks.{fault_of, is_dot, is_small, is_small_delta, is_tag, is_within, snap_fault, updates_fault, update_fault, IsFit};
ghost use Rattle.tx_core.specs.Ops.{over_of};

use crate::op::Op;
use crate::tx::{Tx, Update};
use ids_core::{
    Dot, MOST_CLIENTS, MOST_DELTA, MOST_NUMBER, MOST_RECORDS, MOST_TAGS, MOST_UPDATES, OpId,
};
use thiserror::Error;
use vv_core::Vector;

/// What is wrong with a transaction.
#[derive(Clone, Copy, Debug, Error)]
pub enum TxFault {
    /// There is no update.
    #[error("there is no update")]
    NoUpdates,
    /// There are more than `MOST_UPDATES` updates.
    #[error("{count} updates are too many")]
    TooManyUpdates { count: u64 },
    /// The client is outside 1 to `MOST_CLIENTS`, or the number is outside 1 to `MOST_NUMBER`.
    #[error("the client or the number is out of range")]
    BadDot,
    /// The rank is outside 1 to `MOST_NUMBER`.
    #[error("the rank is out of range")]
    BadRank,
    /// The snapshot has not the width asked for.
    #[error("the snapshot has {width} entries")]
    WrongWidth { width: u8 },
    /// An entry of the snapshot is above `MOST_RECORDS`; the least such centre.
    #[error("the entry of centre {centre} in the snapshot is too great")]
    BadSnap { centre: u8 },
    /// The operation of the update at that place is not of its object's kind.
    #[error("update {place} is not of its object's kind")]
    WrongKind { place: u16 },
    /// The delta of the update at that place is outside ±`MOST_DELTA`.
    #[error("the delta of update {place} is too large")]
    DeltaTooLarge { place: u16 },
    /// The operation of the update at that place is over more than `MOST_TAGS` identifiers.
    #[error("update {place} is over {count} identifiers, which are too many")]
    TooManyTags { place: u16, count: u64 },
    /// The operation of the update at that place is over an identifier whose client is outside 1 to
    /// `MOST_CLIENTS`, whose number is outside 1 to `MOST_NUMBER`, or whose place is above
    /// `MOST_UPDATES - 1`.
    #[error("update {place} is over an identifier that is out of range")]
    BadTag { place: u16 },
}

impl Tx {
    /// Whether the transaction is fit for a system of `n` centres. An `Err` names the first fault,
    /// in the order of `TxFault`, where the last four are those of the least place that has one.
    pub fn check(&self, n: u8) -> Result<(), TxFault>
        ensures taken { OnOk result (fault_of n self.now ≡ None) }
        ensures refused { IfErr result (λ fault. fault_of n self.now ≡ Some fault) }
        ensures fits { IsOk result ↔ IsFit n self.now }
    {
        match first_fault(self, n) {
            None => Ok(()),
            Some(fault) => Err(fault),
        }
    }
}

fn first_fault(tx: &Tx, n: u8) -> Option<TxFault>
    ensures { result ≡ fault_of n tx.now }
{
    let updates = tx.updates.as_slice();
    let count = updates.len() as u64;
    let width = tx.snap.width();
    if updates.is_empty() {
        Some(TxFault::NoUpdates)
    } else if count > MOST_UPDATES {
        Some(TxFault::TooManyUpdates { count })
    } else if !is_dot(&tx.dot) {
        Some(TxFault::BadDot)
    } else if !is_within(1, MOST_NUMBER, tx.rank) {
        Some(TxFault::BadRank)
    } else if width != n {
        Some(TxFault::WrongWidth { width })
    } else {
        match snap_fault(&tx.snap) {
            None => updates_fault(updates),
            Some(fault) => Some(fault),
        }
    }
}

fn is_dot(dot: &Dot) -> bool
    ensures { result ≡ is_dot dot.now }
{
    is_within(1, u64::from(MOST_CLIENTS), u64::from(dot.client))
        && is_within(1, MOST_NUMBER, dot.number)
}

fn is_within(low: u64, high: u64, number: u64) -> bool
    ensures { result ≡ is_within low high number }
{
    low <= number && number <= high
}

fn snap_fault(snap: &Vector) -> Option<TxFault>
    ensures { result ≡ snap_fault snap.now }
{
    match high_place(snap.as_slice()) {
        None => None,
        Some(place) => {
            let centre = (place + 1) as u8;
            Some(TxFault::BadSnap { centre })
        }
    }
}

// The first place with an entry above `MOST_RECORDS`.
fn high_place(entries: &[u32]) -> Option<usize>
    ensures place { result ≡ position (nat_lt MOST_RECORDS) entries.now }
    ensures inside { IfSome result (λ place. place < length entries.now) }
{
    entries.iter().position(|entry| MOST_RECORDS < *entry)
}

fn updates_fault(updates: &[Update]) -> Option<TxFault>
    requires { length updates.now ≤ MOST_UPDATES }
    ensures { result ≡ updates_fault 0 updates.now }
{
    for (place, update) in updates.iter().enumerate() {
        if let Some(fault) = update_fault(place as u16, update) {
            return Some(fault);
        }
    }
    None
}

fn update_fault(place: u16, update: &Update) -> Option<TxFault>
    ensures { result ≡ update_fault place update.now }
{
    let count = update.op.tag_count() as u64;
    if update.op.sort() != update.object.sort {
        Some(TxFault::WrongKind { place })
    } else if !is_small(&update.op) {
        Some(TxFault::DeltaTooLarge { place })
    } else if count > MOST_TAGS {
        Some(TxFault::TooManyTags { place, count })
    } else if !has_good_tags(&update.op) {
        Some(TxFault::BadTag { place })
    } else {
        None
    }
}

// Whether each identifier that the operation is over is in range.
fn has_good_tags(op: &Op) -> bool
    ensures { result ≡ list_all is_tag (over_of op.now) }
{
    match op {
        Op::Inc { .. } | Op::Write { .. } => true,
        Op::Add { over, .. } | Op::Remove { over, .. } => are_tags(over.as_slice()),
        Op::Put { over, .. } | Op::Erase { over, .. } => are_tags(over.as_slice()),
    }
}

fn are_tags(ids: &[OpId]) -> bool
    ensures { result ≡ list_all is_tag ids.now }
{
    ids.iter().all(is_tag)
}

fn is_tag(id: &OpId) -> bool
    ensures { result ≡ is_tag id.now }
{
    is_dot(&id.dot) && u64::from(id.place) < MOST_UPDATES
}

fn is_small(op: &Op) -> bool
    ensures { result ≡ is_small op.now }
{
    match op {
        Op::Inc { delta } => is_small_delta(*delta),
        _ => true,
    }
}

/// Whether a delta lies in ±`MOST_DELTA`.
pub fn is_small_delta(delta: i64) -> bool
    ensures { result ≡ is_small_delta delta }
{
    delta.unsigned_abs() <= MOST_DELTA
}
