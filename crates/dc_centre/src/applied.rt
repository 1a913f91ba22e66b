// What a centre keeps of the records that it applied.
ghost use Rattle.std.specs.Prelude.{◌≡◌, ◌≢◌, ◌≤◌, ◌+◌, ◌==◌, ◌++◌, ◌∷◌, [], ◌↔◌, ℕ, true, IfOk, OnOk, OnErr, IsTrue, cond, length, max, Some, Option, List};
ghost use Rattle.list_core.specs.Members.{In};
ghost use Rattle.ids_core.specs.declared.limits.TheConstants.{MOST_CENTRES, MOST_CLIENTS};
ghost use Rattle.vv_core.specs.Vectors.{at, raised, zeros, Covers};
ghost use Rattle.vv_core.specs.declared.stamp.Stamp.{Stamp};
ghost use Rattle.dup_guard.specs.Notes.{number_of, stamp_of};
ghost use Rattle.tx_core.specs.Checks.{IsFit};
ghost use Rattle.tx_core.specs.declared.tx.Record.{Record as RecordOf};
ghost use Rattle.point_log.specs.StandFor.{state_told, mine_told, count_told};
ghost use Rattle.object_delta.specs.Deltas.{ops_told, if_few};
ghost use Rattle.dc_talk.specs.Records.{joined};
ghost use Rattle.dc_centre.specs.Applied.{IsNext, is_fresh, IsApplied};

use check_point::Point;
use dc_talk::SharedState;
use dup_guard::Guard;
use ids_core::{Dot, NoMemory, ObjectId};
use object_delta::{PassedObjects, changes};
use op_log::Log;
use point_log::{Mines, ServedStates, keep, prune, serve, tell_mine};
use std::alloc::Global;
use std::collections::BTreeMap;
use std::marker::Model;
use tx_core::{Record, Tail, Tx};
use vv_core::{Stamp, Vector};

/// What a centre keeps of the records that it applied: how many there are of each centre, the last
/// number of each client with its first stamp, the greatest rank, and the transactions, those within a
/// vector folded into states, and the others in a log. Beside them it keeps states that it served, each of
/// an object with many operations in the log at a vector within the counts, and of each client the last number that
/// it told, and of objects how many of their first operations in the log are within a vector, until it is pruned: they
/// are what point and log tell, and no contract shows them.
#[derive(Drop)]
pub struct Applied {
    pub(crate) vector: Vector,
    pub(crate) guard: Guard,
    pub(crate) top: u64,
    pub(crate) point: Point,
    pub(crate) log: Log,
    pub(crate) served: ServedStates,
    pub(crate) mines: Mines,
    pub(crate) passed: PassedObjects,
}

impl Model for Applied {
    ghost use Rattle.tx_core.specs.States.{state_codes};
    ghost use Rattle.dc_centre.specs.Applied.{AppliedView, IsKept};

    ghost Value = { AppliedView };

    ghost coded = { Prim.hlevel state_codes };

    ghost view = { λ a. record { counts = a.vector; lasts = a.guard; greatest = a.top; point = a.point; log = a.log } };

    ghost invariant = { λ a. IsKept (record { counts = a.vector; lasts = a.guard; greatest = a.top; point = a.point; log = a.log }) a.served.entries a.mines.entries a.passed.entries };
}

impl Applied {
    /// Nothing is applied yet, among `n` centres.
    pub fn new(alloc: Global, n: u8) -> Result<Applied, NoMemory>
        requires { (1 ≤ n) × (n ≤ MOST_CENTRES) }
        ensures counts { IfOk result (λ a. a.counts ≡ zeros n) }
        ensures base { IfOk result (λ a. a.point.vector ≡ zeros n) }
        ensures none { IfOk result (λ a. IsApplied n a []) }
    {
        Ok(Applied {
            vector: Vector::zero(n),
            guard: Guard::new(alloc)?,
            top: 0,
            point: Point::new(alloc, n)?,
            log: Log::new(alloc)?,
            served: BTreeMap::new(alloc),
            mines: BTreeMap::new(alloc),
            passed: BTreeMap::new(alloc),
        })
    }

    /// How many records there are of each centre.
    pub fn vector(&self) -> Vector
        ensures { result ≡ self.now.counts }
    {
        self.vector
    }

    /// How many records there are of one centre.
    pub fn count(&self, centre: u8) -> u64
        requires { (1 ≤ centre) × (centre ≤ length self.now.counts) }
        ensures { result ≡ at self.now.counts centre }
    {
        self.vector.get(centre)
    }

    /// The vector within which all is folded.
    pub fn base(&self) -> Vector
        ensures vector { result ≡ self.now.point.vector }
        ensures width { length result ≡ length self.now.counts }
    {
        self.point.vector()
    }

    /// How many transactions are folded.
    pub fn folded(&self) -> u64
        ensures { result ≡ self.now.point.folded }
    {
        self.point.folded()
    }

    /// Whether a record has the stamp.
    pub fn has(&self, stamp: &Stamp) -> bool
        ensures { (A : List RecordOf) → IsApplied (length self.now.counts) self.now A → IsTrue result ↔ ((r : RecordOf) × In r A × (r.stamp ≡ stamp.now)) }
    {
        is_counted(&self.vector, stamp)
    }

    /// The greatest number of a client's transactions, 0 for none.
    pub fn through(&self, client: u32) -> u64
        ensures { result ≡ number_of self.now.lasts client }
    {
        self.guard.through(client)
    }

    /// The greatest rank, 0 for none.
    pub fn top(&self) -> u64
        ensures { result ≡ self.now.greatest }
    {
        self.top
    }

    /// The greatest number of a client's transactions within a vector that is within the counts, 0 for none. Nothing that
    /// is seen changes. Time: at the vector of the client's last call a look-up, and else the client's transactions
    /// in the log.
    pub fn mine(&mut self, client: u32, at: &Vector) -> u64
        requires { Covers self.old.counts at.now }
        ensures number { result ≡ mine_told self.old.point self.old.log client at.now }
        ensures same { self.new ≡ self.old }
    {
        tell_mine(&self.point, &self.log, &mut self.mines, client, at)
    }

    /// The state of an object at a vector within the counts that covers the base. Nothing that is seen
    /// changes. Time: for an object with few operations in the log these, and else a copy of the state that
    /// was last kept and what came since. At the vector of that one it is handed out again.
    pub fn state(
        &mut self,
        alloc: Global,
        object: &ObjectId,
        at: &Vector,
    ) -> Result<SharedState, NoMemory>
        requires width { length at.now ≡ length self.old.counts }
        requires covers { Covers at.now self.old.point.vector }
        requires here { Covers self.old.counts at.now }
        ensures state { IfOk result (λ state. state ≡ state_told self.old.point self.old.log object.now at.now) }
        ensures same { self.new ≡ self.old }
    {
        serve(alloc, &self.point, &self.log, &mut self.served, object, at)
    }

    /// The operations that came to an object between two vectors, by the log, where they are at most `MOST_CHANGES`; else
    /// `None`. Nothing that is seen changes. Time: that of the object's operations in the log behind those that are known
    /// to be within the first vector.
    pub fn changes(
        &mut self,
        alloc: Global,
        object: &ObjectId,
        from: &Vector,
        at: &Vector,
    ) -> Result<Option<Tail>, NoMemory>
        requires from { length from.now ≡ length self.old.counts }
        requires at { length at.now ≡ length self.old.counts }
        ensures told { IfOk result (λ tail. tail ≡ if_few (ops_told self.old.log object.now from.now at.now)) }
        ensures same { self.new ≡ self.old }
    {
        changes(alloc, &self.log, &mut self.passed, object, from, at)
    }

    /// The dependency vector of its client's next transaction.
    pub fn deps_of(&self, tx: &Tx) -> Vector
        requires { IsFit (length self.now.counts) tx.now }
        ensures entries { result ≡ joined (length self.now.counts) tx.now.snap (stamp_of self.now.lasts tx.now.dot.client) }
        ensures width { length result ≡ length self.now.counts }
    {
        match self.guard.first_stamp(tx.dot.client) {
            Some(stamp) => tx.snap.raise(&stamp),
            None => tx.snap,
        }
    }

    /// Takes in the next record of its origin. Says whether its transaction is new. Memory is taken
    /// before anything changes.
    pub fn take(&mut self, item: &Record) -> Result<bool, NoMemory>
        requires { IsNext self.old item.now }
        ensures fresh { IfOk result (λ fresh. fresh ≡ is_fresh self.old item.now) }
        ensures counts { OnOk result (self.new.counts ≡ raised self.old.counts item.now.stamp) }
        ensures point { self.new.point ≡ self.old.point }
        ensures grown { OnOk result ((A : List RecordOf) → IsApplied (length self.old.counts) self.old A → IsApplied (length self.old.counts) self.new (A ++ item.now ∷ [])) }
        ensures err { OnErr result (self.new ≡ self.old) }
    {
        let fresh = !self.guard.seen(&item.tx.dot);
        keep(&mut self.log, item, fresh)?;
        note_if(&mut self.guard, fresh, &item.tx.dot, &item.stamp);
        self.vector = self.vector.raise(&item.stamp);
        self.top = item.tx.rank.max(self.top);
        Ok(fresh)
    }

    /// Folds all that is within a vector, which covers the base and is within what is there. An `Err`
    /// leaves all as it was.
    pub fn prune(&mut self, alloc: Global, to: &Vector) -> Result<(), NoMemory>
        requires width { length to.now ≡ length self.old.counts }
        requires covers { Covers to.now self.old.point.vector }
        requires here { Covers self.old.counts to.now }
        ensures base { OnOk result (self.new.point.vector ≡ to.now) }
        ensures count { OnOk result (self.new.point.folded ≡ count_told self.old.point self.old.log to.now) }
        ensures counts { self.new.counts ≡ self.old.counts }
        ensures same { OnOk result ((A : List RecordOf) → IsApplied (length self.old.counts) self.old A → IsApplied (length self.old.counts) self.new A) }
        ensures err { OnErr result (self.new ≡ self.old) }
    {
        prune(alloc, &mut self.point, &mut self.log, to)?;
        self.served.clear();
        self.mines.clear();
        self.passed.clear();
        Ok(())
    }
}

// Whether a stamp is one of those that are counted.
fn is_counted(counts: &Vector, stamp: &Stamp) -> bool
    ensures { IsTrue result ↔ ((1 ≤ stamp.now.centre) × (stamp.now.centre ≤ length counts.now) × (1 ≤ stamp.now.seq) × (stamp.now.seq ≤ at counts.now stamp.now.centre)) }
{
    if stamp.centre < 1 || counts.width() < stamp.centre {
        return false;
    }
    1 <= stamp.seq && counts.has(stamp)
}

// Notes the number of a new transaction.
fn note_if(guard: &mut Guard, fresh: bool, dot: &Dot, stamp: &Stamp)
    requires client { (1 ≤ dot.now.client) × (dot.now.client ≤ MOST_CLIENTS) }
    requires next { fresh ≡ true → dot.now.number ≡ number_of guard.old dot.now.client + 1 }
    requires known { fresh ≢ true → dot.now.number ≤ number_of guard.old dot.now.client }
    ensures numbers { (client : ℕ) → number_of guard.new client ≡ max (number_of guard.old client) (cond (client == dot.now.client) dot.now.number 0) }
    ensures stamp { fresh ≡ true → stamp_of guard.new dot.now.client ≡ Some stamp.now }
    ensures others { (client : ℕ) → (fresh ≡ true → client ≢ dot.now.client) → stamp_of guard.new client ≡ stamp_of guard.old client }
{
    if fresh {
        guard.note(dot, stamp);
    }
}
