// Where a transaction in the log is kept.
ghost use Rattle.std.specs.Prelude.{◌≡◌, ◌&&◌, not, IfOk, OnOk, OnErr};
ghost use Rattle.ids_core.specs.Ids.{same_dot};
ghost use Rattle.op_log.specs.Logs.{is_inside, stamped};
ghost use Rattle.op_log.specs.RestParts.{rest_part};

use crate::logged::Logged;
use ids_core::{Dot, NoMemory};
use std::alloc::Global;
use std::marker::Model;
use tx_core::{RestPart, Tx, Update};
use vv_core::{Stamp, Vector};

/// A transaction in the log, in a place of its own, so that a table of many moves no more than where they are.
#[derive(Drop)]
pub(crate) struct Slot {
    kept: Box<Logged>,
}

impl Model for Slot {
    ghost use Rattle.op_log.specs.declared.logged.Logged.{Logged};

    ghost Value = { Logged };

    ghost view = { λ s. s.kept.value };
}

impl Slot {
    /// Keeps a transaction.
    pub(crate) fn new(alloc: Global, x: Logged) -> Result<Slot, NoMemory>
        ensures { IfOk result (λ slot. slot ≡ x) }
    {
        Ok(Slot {
            kept: Box::new(alloc, x)?,
        })
    }

    /// The transaction.
    pub(crate) fn tx(&self) -> &Tx
        ensures { result.now ≡ self.now.tx }
    {
        &self.kept.tx
    }

    /// The dot of the transaction.
    pub(crate) fn dot(&self) -> Dot
        ensures { result ≡ self.now.tx.dot }
    {
        self.kept.tx.dot
    }

    /// The updates of the transaction.
    pub(crate) fn updates(&self) -> &[Update]
        ensures { result.now ≡ self.now.tx.updates }
    {
        self.kept.tx.updates.as_slice()
    }

    /// Whether the transaction has the dot.
    pub(crate) fn has(&self, dot: &Dot) -> bool
        ensures { result ≡ same_dot self.now.tx.dot dot.now }
    {
        self.kept.tx.dot == *dot
    }

    /// All its stamps.
    pub(crate) fn stamps(&self) -> &[Stamp]
        ensures { result.now ≡ self.now.stamps }
    {
        self.kept.stamps.as_slice()
    }

    /// The transaction with its stamps, again.
    pub(crate) fn part(&self, alloc: Global) -> Result<RestPart, NoMemory>
        ensures { IfOk result (λ part. part ≡ rest_part self.now) }
    {
        self.kept.part(alloc)
    }

    /// Whether one of its stamps is within the vector.
    pub(crate) fn is_inside(&self, at: &Vector) -> bool
        ensures { result ≡ is_inside at.now self.now }
    {
        self.kept.is_inside(at)
    }

    /// Whether one of its stamps is within the vector, and none within the one before.
    pub(crate) fn came_since(&self, before: &Vector, at: &Vector) -> bool
        ensures { result ≡ (is_inside at.now self.now && not (is_inside before.now self.now)) }
    {
        self.kept.came_since(before, at)
    }

    /// Adds a stamp if it has the dot: whether it has. An `Err` leaves all as it was.
    pub(crate) fn add_if(
        &mut self,
        alloc: Global,
        dot: &Dot,
        stamp: &Stamp,
    ) -> Result<bool, NoMemory>
        ensures found { IfOk result (λ found. found ≡ same_dot self.old.tx.dot dot.now) }
        ensures ok { OnOk result (self.new ≡ stamped dot.now stamp.now self.old) }
        ensures err { OnErr result (self.new ≡ self.old) }
        ensures number { self.new.number ≡ self.old.number }
    {
        if self.has(dot) {
            self.kept.add(alloc, stamp)?;
            Ok(true)
        } else {
            Ok(false)
        }
    }
}
