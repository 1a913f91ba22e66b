// Transactions and their records.
ghost use Rattle.std.specs.Prelude.{◌≡◌, IfOk};

use crate::op::Op;
use crate::updates::Updates;
use ids_core::{Dot, NoMemory, ObjectId};
use vv_core::{Stamp, Vector};

/// An operation on one object.
#[derive(Clone, Drop)]
pub struct Update {
    pub object: ObjectId,
    pub op: Op,
}

/// A transaction as its client commits it (Zawirski and others, Middleware 2015).
#[derive(Clone, Drop)]
pub struct Tx {
    /// The client's own number for it.
    pub dot: Dot,
    /// Its rank, greater than that of all that the client had seen.
    pub rank: u64,
    /// The snapshot that it read.
    pub snap: Vector,
    pub updates: Updates,
}

/// A transaction as a centre took it.
#[derive(Clone, Drop)]
pub struct Record {
    /// The centre's number for it.
    pub stamp: Stamp,
    /// What has to be at another centre before it.
    pub deps: Vector,
    pub tx: Tx,
}

impl Tx {
    /// The same transaction again.
    pub fn copy(&self) -> Result<Tx, NoMemory>
        ensures { IfOk result (λ copy. copy ≡ self.now) }
    {
        Ok(self.clone()?)
    }
}

impl Record {
    /// The same record again.
    pub fn copy(&self) -> Result<Record, NoMemory>
        ensures { IfOk result (λ copy. copy ≡ self.now) }
    {
        Ok(Record {
            stamp: self.stamp,
            deps: self.deps,
            tx: self.tx.copy()?,
        })
    }
}
