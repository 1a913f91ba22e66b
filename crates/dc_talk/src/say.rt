// What a centre answers.
ghost use Rattle.std.specs.Prelude.{◌≡◌, IfOk};

use crate::sent::{Sent, SharedState};
use ids_core::NoMemory;
use list_core::List;
use std::alloc::AllocError;
use tx_core::Tail;
use vv_core::{Stamp, Vector};

/// Records with their hops in their order, seen as their list.
pub type Records = List<Sent>;

/// One answer of a centre. Centres are numbered from 1.
#[derive(Drop)]
pub enum Say {
    /// The ask does not fit a system of this many centres.
    Misfit,
    /// The centre is stopped.
    Down,
    /// The least centre of which the ask needs more records than the answering centre has.
    Lacks {
        centre: u8,
        need: u64,
        have: u64,
    },
    /// To a hello: the greatest number of the client's transactions that is here, 0 for none.
    Welcome {
        through: u64,
    },
    /// To a refresh: the new snapshot, the greatest number of the client's own transactions within
    /// it, and the greatest rank that the centre has seen.
    Snap {
        vector: Vector,
        mine: u64,
        top: u64,
    },
    /// To a fetch or a delta: the centre keeps states from its base on alone, and the base is above the snapshot, or
    /// above that from which the delta goes. The
    /// least centre of which that is so, with the base's entry and the snapshot's.
    Pruned {
        centre: u8,
        base: u64,
        at: u64,
    },
    /// To a fetch, or to a delta of more than `MOST_CHANGES` operations: the state of the object at the snapshot.
    Object {
        state: SharedState,
    },
    /// To a delta: the operations that came to the object between the two snapshots.
    Changes {
        tail: Tail,
    },
    /// The transaction was here before: the greatest number of its client that is here.
    Known {
        through: u64,
    },
    /// An earlier transaction of the client is missing: the greatest number that is here.
    OutOfOrder {
        have: u64,
    },
    /// The centre has stamped as many transactions as it may.
    Full {
        limit: u64,
    },
    /// The transaction has this stamp now.
    Stamped {
        stamp: Stamp,
    },
    /// To a send or a relay: the centre keeps the records of the origin from behind this number on alone.
    Trimmed {
        from: u64,
    },
    /// To a send or a relay: the records that were asked for, with their hops.
    Records {
        list: Records,
    },
    /// The record is here: as many of its origin are.
    Old {
        have: u64,
    },
    /// An earlier record of its origin is missing, of which so many are here, or the record is the
    /// centre's own.
    Gap {
        have: u64,
    },
    /// The least centre of which the record depends on more records than are here.
    Waits {
        centre: u8,
        need: u64,
        have: u64,
    },
    /// An earlier transaction of its client is missing: the number asked and the greatest here.
    Orphan {
        number: u64,
        have: u64,
    },
    /// The record is here now; whether its transaction is new.
    Applied {
        fresh: bool,
    },
    /// To a report: how many records of each centre are here.
    Vector {
        vector: Vector,
    },
    /// The vector is taken in; whether it told anything new.
    Learned {
        fresh: bool,
    },
    /// To a prune: the new base, the number of transactions within it, and the number up to which own
    /// records were let go.
    Base {
        vector: Vector,
        folded: u64,
        trimmed: u64,
    },
    /// The centre is stopped now.
    Stopped,
    /// The centre is running now.
    Started,
}

impl Clone for Say {
    ghost is_clone = { λ old new. new ≡ old };

    // Inlined, so that a copy is written to the place where it is kept: an answer is large to hand over.
    #[inline(always)]
    fn clone(&self) -> Result<Say, AllocError> {
        match self {
            Say::Misfit => Ok(Say::Misfit),
            Say::Down => Ok(Say::Down),
            Say::Lacks { centre, need, have } => Ok(Say::Lacks {
                centre: *centre,
                need: *need,
                have: *have,
            }),
            Say::Welcome { through } => Ok(Say::Welcome { through: *through }),
            Say::Snap { vector, mine, top } => Ok(Say::Snap {
                vector: *vector,
                mine: *mine,
                top: *top,
            }),
            Say::Pruned { centre, base, at } => Ok(Say::Pruned {
                centre: *centre,
                base: *base,
                at: *at,
            }),
            Say::Object { state } => Ok(Say::Object {
                state: state.clone()?,
            }),
            Say::Changes { tail } => Ok(Say::Changes {
                tail: tail.clone()?,
            }),
            Say::Known { through } => Ok(Say::Known { through: *through }),
            Say::OutOfOrder { have } => Ok(Say::OutOfOrder { have: *have }),
            Say::Full { limit } => Ok(Say::Full { limit: *limit }),
            Say::Stamped { stamp } => Ok(Say::Stamped { stamp: *stamp }),
            Say::Trimmed { from } => Ok(Say::Trimmed { from: *from }),
            Say::Records { list } => Ok(Say::Records {
                list: list.clone()?,
            }),
            Say::Old { have } => Ok(Say::Old { have: *have }),
            Say::Gap { have } => Ok(Say::Gap { have: *have }),
            Say::Waits { centre, need, have } => Ok(Say::Waits {
                centre: *centre,
                need: *need,
                have: *have,
            }),
            Say::Orphan { number, have } => Ok(Say::Orphan {
                number: *number,
                have: *have,
            }),
            Say::Applied { fresh } => Ok(Say::Applied { fresh: *fresh }),
            Say::Vector { vector } => Ok(Say::Vector { vector: *vector }),
            Say::Learned { fresh } => Ok(Say::Learned { fresh: *fresh }),
            Say::Base {
                vector,
                folded,
                trimmed,
            } => Ok(Say::Base {
                vector: *vector,
                folded: *folded,
                trimmed: *trimmed,
            }),
            Say::Stopped => Ok(Say::Stopped),
            Say::Started => Ok(Say::Started),
        }
    }
}

impl Say {
    /// An equal answer. Nothing changes where memory is refused.
    #[inline(always)]
    pub fn copy(&self) -> Result<Say, NoMemory>
        ensures { IfOk result (λ copy. copy ≡ self.now) }
    {
        Ok(self.clone()?)
    }
}
