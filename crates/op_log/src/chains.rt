// The operations in the log, found by their objects.

use ids_core::Mark;
use object_lists::{Entry, ObjectLists};
use tx_core::Op;

/// An operation in the log.
#[derive(Drop)]
pub struct Cell {
    /// The transaction that it is of: which append to the log that was, counted from 0.
    pub tx: u64,
    /// Its mark: the rank of the transaction, with its dot and the place there.
    pub mark: Mark,
    pub op: Op,
}

/// The chains of all objects: the operations on each, in the order of the log.
pub(crate) type Chains = ObjectLists<Cell>;

impl Entry for Cell {
    ghost use Rattle.op_log.specs.Logs.{cell};

    ghost entry_of = { cell };

    fn of(number: u64, mark: Mark, op: Op) -> Cell {
        Cell {
            tx: number,
            mark,
            op,
        }
    }
}
