// A transaction in the log.
ghost use Rattle.std.specs.Prelude.{◌≡◌, ◌&&◌, ◌++◌, ◌∷◌, [], not, IfOk, OnOk, OnErr};
ghost use Rattle.op_log.specs.Logs.{is_inside, first_of, with_one};
ghost use Rattle.op_log.specs.RestParts.{rest_part, logged_part};

use crate::stamp_list::StampList;
use ids_core::NoMemory;
use stamp_index::is_any_within;
use std::alloc::Global;
use tx_core::{Record, RestPart, Tx};
use vv_core::{Stamp, Vector};

/// A transaction in the log: which append it was, counted from 0, and all stamps that it has, in the
/// order in which they came.
#[derive(Drop)]
pub struct Logged {
    pub number: u64,
    pub tx: Tx,
    pub stamps: StampList,
}

impl Logged {
    /// The transaction of a record, with its stamp.
    pub(crate) fn of(number: u64, item: &Record) -> Result<Logged, NoMemory>
        ensures { IfOk result (λ x. x ≡ first_of number item.now) }
    {
        Ok(Logged {
            number,
            tx: item.tx.copy()?,
            stamps: StampList::one(item.stamp),
        })
    }

    /// The transaction of a part, under a number. It takes no memory.
    pub(crate) fn of_part(number: u64, part: RestPart) -> Logged
        ensures { result ≡ logged_part number part }
    {
        Logged {
            number,
            tx: part.tx,
            stamps: StampList::from_list(part.stamps),
        }
    }

    /// The transaction with its stamps, again.
    pub(crate) fn part(&self, alloc: Global) -> Result<RestPart, NoMemory>
        ensures { IfOk result (λ part. part ≡ rest_part self.now) }
    {
        Ok(RestPart {
            tx: self.tx.copy()?,
            stamps: self.stamps.to_list(alloc)?,
        })
    }

    /// Whether one of its stamps is within the vector.
    pub(crate) fn is_inside(&self, at: &Vector) -> bool
        ensures { result ≡ is_inside at.now self.now }
    {
        is_any_within(self.stamps.as_slice(), at)
    }

    /// Whether one of its stamps is within the vector, and none within the one before.
    pub(crate) fn came_since(&self, before: &Vector, at: &Vector) -> bool
        ensures { result ≡ (is_inside at.now self.now && not (is_inside before.now self.now)) }
    {
        self.is_inside(at) && !self.is_inside(before)
    }

    /// One stamp more. An `Err` leaves all as it was.
    pub(crate) fn add(&mut self, alloc: Global, stamp: &Stamp) -> Result<(), NoMemory>
        ensures ok { OnOk result (self.new ≡ with_one stamp.now self.old) }
        ensures err { OnErr result (self.new ≡ self.old) }
    {
        self.stamps.push(alloc, *stamp)
    }
}
