// The log of a centre.
ghost use Rattle.std.specs.Prelude.{◌≡◌, ◌≤◌, ◌&&◌, [], not, false, map, length, IfOk, OnOk, OnErr};
ghost use Rattle.ids_core.specs.declared.limits.TheConstants.{MOST_UPDATES};
ghost use Rattle.op_log.specs.Logs.{chain_of, is_inside_at, mine_in, within_of, left_of, has_dot, with_stamp, with_record};
ghost use Rattle.op_log.specs.RestParts.{AreParts, log_of, parts_of, with_part};

use crate::chains::{Cell, Chains};
use crate::dots::{Dots, mine_of, name};
use crate::logged::Logged;
use crate::parts::parts_of;
use crate::slots::{Slots, is_inside_at, is_since, keep};
use crate::stamps::{alias_at, keep_stamped, note_all};
use crate::sweep::sweep_chains;
use crate::take::take_all;
use crate::within::copies_within;
use ids_core::{Dot, NoMemory, ObjectId};
use object_lists::{ObjectLists, put_tx, take_last_tx};
use stamp_index::Places;
use std::alloc::Global;
use std::collections::{BTreeMap, BTreeSet};
use std::marker::Model;
use tx_core::{Record, RestPart, RestParts, Tx};
use vv_core::{Stamp, Vector};

/// The transactions that are not folded yet, with all their stamps, seen as their list in the order in
/// which they were appended, and how many ever were. Beside it stand tables, so that a look-up costs
/// what it finds and a logarithm of the rest.
#[derive(Drop)]
pub struct Log {
    appended: u64,
    slots: Slots,
    dots: Dots,
    chains: Chains,
    places: Places,
    alloc: Global,
}

impl Model for Log {
    ghost use Rattle.std.specs.Map.{values_of};
    ghost use Rattle.op_log.specs.Logs.{LogView};
    ghost use Rattle.op_log.specs.Tables.{IsLog};

    ghost Value = { LogView };

    ghost view = { λ l. record { appended = l.appended; items = values_of l.slots.entries } };

    ghost invariant = { λ l. IsLog l.appended l.slots.entries l.dots.entries l.chains l.places.keys };
}

impl Log {
    /// No transaction.
    pub fn new(alloc: Global) -> Result<Log, NoMemory>
        ensures { IfOk result (λ log. log ≡ record { appended = 0; items = [] }) }
    {
        Ok(Log {
            appended: 0,
            slots: BTreeMap::new(alloc),
            dots: BTreeMap::new(alloc),
            chains: ObjectLists::new(alloc),
            places: BTreeSet::new(alloc),
            alloc,
        })
    }

    /// Puts the transaction of a record, of at most `MOST_UPDATES` updates, with the record's stamp at
    /// the end. Its dot is not in the log. An `Err` leaves all as it was.
    pub fn append(&mut self, item: &Record) -> Result<(), NoMemory>
        requires new { has_dot item.now.tx.dot self.old.items ≡ false }
        requires few { length item.now.tx.updates ≤ MOST_UPDATES }
        ensures ok { OnOk result (self.new ≡ with_record self.old item.now) }
        ensures err { OnErr result (self.new ≡ self.old) }
    {
        let number = self.appended;
        let appended = match number.checked_add(1) {
            Some(appended) => appended,
            None => return Err(NoMemory),
        };
        let x = Logged::of(number, item)?;
        name(&mut self.dots, &item.tx.dot, number)?;
        put_tx(&mut self.chains, number, &item.tx)?;
        if keep_stamped(
            self.alloc,
            &mut self.slots,
            &mut self.places,
            x,
            &item.stamp,
        )
        .is_err()
        {
            take_last_tx(&mut self.chains, &item.tx);
            return Err(NoMemory);
        }
        self.appended = appended;
        Ok(())
    }

    /// Gives the transaction of a dot one stamp more, and says whether it is in the log. Nothing else
    /// changes, and nothing at all where it is not, or where memory is refused.
    pub fn alias(&mut self, dot: &Dot, stamp: &Stamp) -> Result<bool, NoMemory>
        ensures found { IfOk result (λ found. found ≡ has_dot dot.now self.old.items) }
        ensures ok { OnOk result (self.new ≡ record self.old { items = with_stamp dot.now stamp.now self.old.items }) }
        ensures err { OnErr result (self.new ≡ self.old) }
    {
        match self.dots.get(dot) {
            Some(number) => {
                alias_at(
                    self.alloc,
                    &mut self.slots,
                    &mut self.places,
                    *number,
                    dot,
                    stamp,
                )
            },
            None => Ok(false),
        }
    }

    /// The operations on an object, in the order of the log. It takes no memory.
    pub fn chain(&self, object: &ObjectId) -> &[Cell]
        ensures { result.now ≡ chain_of object.now self.now.items }
    {
        self.chains.get(object)
    }

    /// Whether the transaction of a number has a stamp within the vector. It takes no memory.
    pub fn inside(&self, tx: u64, at: &Vector) -> bool
        ensures { result ≡ is_inside_at at.now tx self.now.items }
    {
        is_inside_at(&self.slots, tx, at)
    }

    /// Whether the transaction of a number has a stamp within the vector, and none within the one before. It takes
    /// no memory.
    pub fn since(&self, tx: u64, before: &Vector, at: &Vector) -> bool
        ensures { result ≡ (is_inside_at at.now tx self.now.items && not (is_inside_at before.now tx self.now.items)) }
    {
        is_since(&self.slots, tx, before, at)
    }

    /// The greatest number of a client's transactions with a stamp within the vector, 0 for none.
    pub fn mine(&self, client: u32, at: &Vector) -> u64
        ensures { result ≡ mine_in client at.now self.now.items }
    {
        mine_of(&self.dots, &self.slots, client, at)
    }

    /// Copies of the transactions with a stamp within the vector, in the order of the log.
    pub fn within(&self, base: &Vector) -> Result<Vec<Tx>, NoMemory>
        ensures { IfOk result (λ txs. txs.items ≡ map (λ x. x.tx) (within_of base.now self.now.items)) }
    {
        copies_within(self.alloc, &self.slots, &self.places, base)
    }

    /// Takes the transactions with a stamp within the vector out, and says how many they were. None of
    /// them is left. It takes no memory.
    pub fn take_within(&mut self, base: &Vector) -> u64
        ensures count { result ≡ length (within_of base.now self.old.items) }
        ensures left { self.new ≡ record self.old { items = left_of base.now self.old.items } }
    {
        sweep_chains(&mut self.chains, &self.slots, &self.places, base);
        take_all(&mut self.slots, &mut self.dots, &mut self.places, base)
    }
    /// Its transactions, each with its stamps, in the order of the log. Time: linear in them and their
    /// stamps.
    pub fn parts(&self) -> Result<RestParts, NoMemory>
        ensures told { IfOk result (λ parts. parts ≡ parts_of self.now.items) }
        ensures parts { IfOk result (λ parts. AreParts parts) }
    {
        parts_of(self.alloc, &self.slots)
    }

    /// The log of which these are the parts: each transaction has its place among them, counted from 0, for
    /// its number, and the next append goes on from there. Time: linear in the transactions, their stamps
    /// and their operations, with a logarithm for the tables.
    pub fn of_parts(alloc: Global, parts: RestParts) -> Result<Log, NoMemory>
        requires { AreParts parts }
        ensures made { IfOk result (λ log. log ≡ log_of parts) }
        ensures back { IfOk result (λ log. parts_of log.items ≡ parts) }
    {
        let mut log = Log::new(alloc)?;
        for part in parts.into_vec() {
            log = log.with(part)?;
        }
        Ok(log)
    }

    // Puts a part behind the others. Its dot is not in the log.
    fn with(self, part: RestPart) -> Result<Log, NoMemory>
        requires new { has_dot part.tx.dot self.items ≡ false }
        requires few { length part.tx.updates ≤ MOST_UPDATES }
        ensures { IfOk result (λ log. log ≡ with_part self part) }
    {
        let Log {
            appended: number,
            mut slots,
            mut dots,
            mut chains,
            mut places,
            alloc,
        } = self;
        let appended = match number.checked_add(1) {
            Some(appended) => appended,
            None => return Err(NoMemory),
        };
        name(&mut dots, &part.tx.dot, number)?;
        put_tx(&mut chains, number, &part.tx)?;
        note_all(&mut places, number, part.stamps.as_slice())?;
        keep(alloc, &mut slots, Logged::of_part(number, part))?;
        Ok(Log {
            appended,
            slots,
            dots,
            chains,
            places,
            alloc,
        })
    }
}
