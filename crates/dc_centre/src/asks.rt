// What a centre answers to clients.
ghost use Rattle.std.specs.Prelude.{◌≡◌, ◌≤◌, ◌<◌, ◌+◌, IfOk, OnErr, length};
ghost use Rattle.vv_core.specs.Vectors.{at, Covers};
ghost use Rattle.dup_guard.specs.Notes.{number_of};
ghost use Rattle.dc_talk.specs.declared.say.Say.TheVariants.{Lacks, Pruned, Stamped};
ghost use Rattle.dc_talk.specs.declared.ask.Ask.TheVariants.{Hello, Refresh, Fetch, Delta, Commit};
ghost use Rattle.tx_core.specs.Checks.{IsFit};
ghost use Rattle.dc_centre.specs.Centre.{Goes, row_over, stable_over};

use crate::centre::Centre;
use dc_talk::{Say, Sent, SharedRecord};
use ids_core::{NoMemory, ObjectId};
use std::alloc::Global;
use tx_core::{Record, Tx};
use vv_core::{Lack, Stamp, Vector};

impl Centre {
    /// The answer to a hello, in two copies.
    pub(crate) fn welcome(&self, client: u32, need: &Vector) -> (Say, Say)
        requires { length need.now ≡ self.now.settings.n }
        ensures answer { result.0 ≡ row_over self.now (Hello client need.now) }
        ensures copy { result.1 ≡ result.0 }
    {
        match Vector::first_lack(&self.applied.vector(), need) {
            Some(lack) => (lacks(lack), lacks(lack)),
            None => {
                let through = self.applied.through(client);
                (Say::Welcome { through }, Say::Welcome { through })
            }
        }
    }

    // What at least k centres are known to have, and this centre has.
    fn stable(&self) -> Vector
        ensures entries { result ≡ stable_over self.now }
        ensures width { length result ≡ self.now.settings.n }
    {
        self.told.stable(&self.applied.vector())
    }

    /// The answer to a refresh, in two copies.
    pub(crate) fn snap(&mut self, client: u32, at: &Vector) -> (Say, Say)
        requires { length at.now ≡ self.old.settings.n }
        ensures answer { result.0 ≡ row_over self.old (Refresh client at.now) }
        ensures copy { result.1 ≡ result.0 }
        ensures same { self.new ≡ self.old }
    {
        match Vector::first_lack(&self.applied.vector(), at) {
            Some(lack) => (lacks(lack), lacks(lack)),
            None => {
                let vector = at.join(&self.stable());
                let mine = self.applied.mine(client, &vector);
                let top = self.applied.top();
                (
                    Say::Snap { vector, mine, top },
                    Say::Snap { vector, mine, top },
                )
            }
        }
    }

    /// The answer to a fetch, in two copies.
    pub(crate) fn object(
        &mut self,
        alloc: Global,
        object: &ObjectId,
        at: &Vector,
    ) -> Result<(Say, Say), NoMemory>
        requires { length at.now ≡ self.old.settings.n }
        ensures answer { IfOk result (λ says. says.0 ≡ row_over self.old (Fetch object.now at.now)) }
        ensures copy { IfOk result (λ says. says.1 ≡ says.0) }
        ensures same { self.new ≡ self.old }
    {
        if let Some(lack) = Vector::first_lack(&self.applied.vector(), at) {
            return Ok((lacks(lack), lacks(lack)));
        }
        if let Some(lack) = Vector::first_lack(at, &self.applied.base()) {
            return Ok((pruned(lack), pruned(lack)));
        }
        let state = self.applied.state(alloc, object, at)?;
        let copy = state.copy()?;
        Ok((Say::Object { state: copy }, Say::Object { state }))
    }

    /// The answer to a delta, in two copies: the operations where they are few, else the state.
    pub(crate) fn changes(
        &mut self,
        alloc: Global,
        object: &ObjectId,
        from: &Vector,
        at: &Vector,
    ) -> Result<(Say, Say), NoMemory>
        requires from { length from.now ≡ self.old.settings.n }
        requires at { length at.now ≡ self.old.settings.n }
        requires later { Covers at.now from.now }
        ensures answer { IfOk result (λ says. says.0 ≡ row_over self.old (Delta object.now from.now at.now)) }
        ensures copy { IfOk result (λ says. says.1 ≡ says.0) }
        ensures same { self.new ≡ self.old }
    {
        if let Some(lack) = Vector::first_lack(&self.applied.vector(), at) {
            return Ok((lacks(lack), lacks(lack)));
        }
        if let Some(lack) = Vector::first_lack(from, &self.applied.base()) {
            return Ok((pruned(lack), pruned(lack)));
        }
        if let Some(tail) = self.applied.changes(alloc, object, from, at)? {
            let copy = tail.copy()?;
            return Ok((Say::Changes { tail: copy }, Say::Changes { tail }));
        }
        let state = self.applied.state(alloc, object, at)?;
        let copy = state.copy()?;
        Ok((Say::Object { state: copy }, Say::Object { state }))
    }

    // How many transactions it has stamped.
    fn stamped(&self) -> u64
        ensures count { result ≡ at self.now.applied.counts self.now.settings.me }
        ensures most { result ≤ self.now.settings.limit }
    {
        self.applied.count(self.settings.me)
    }

    // Stamps a transaction that can be stamped; the memory is taken before anything changes.
    fn stamp(&mut self, tx: &Tx) -> Result<Stamp, NoMemory>
        requires fit { IsFit self.old.settings.n tx.now }
        requires next { tx.now.dot.number ≡ number_of self.old.applied.lasts tx.now.dot.client + 1 }
        requires room { at self.old.applied.counts self.old.settings.me < self.old.settings.limit }
        ensures stamp { IfOk result (λ stamp. stamp ≡ record { centre = self.old.settings.me; seq = at self.old.applied.counts self.old.settings.me + 1 }) }
        ensures goes { IfOk result (λ stamp. Goes self.old self.new (Commit tx.now) (Stamped stamp)) }
        ensures err { OnErr result (self.new ≡ self.old) }
    {
        let stamp = Stamp {
            centre: self.settings.me,
            seq: (self.stamped() + 1) as u32,
        };
        let record = Record {
            stamp,
            deps: self.applied.deps_of(tx),
            tx: tx.copy()?,
        };
        let sent = Sent {
            item: SharedRecord::new(self.outbox.allocator(), record)?,
            hops: 0,
        };
        self.outbox.reserve(self.settings.me)?;
        self.applied.take(sent.item.as_record())?;
        self.outbox.put(sent);
        Ok(stamp)
    }

    /// The answer to a commit that fits, in two copies.
    pub(crate) fn commit(&mut self, tx: &Tx) -> Result<(Say, Say), NoMemory>
        requires fit { IsFit self.old.settings.n tx.now }
        ensures answer { IfOk result (λ says. says.0 ≡ row_over self.old (Commit tx.now)) }
        ensures copy { IfOk result (λ says. says.1 ≡ says.0) }
        ensures goes { IfOk result (λ says. Goes self.old self.new (Commit tx.now) says.0) }
        ensures err { OnErr result (self.new ≡ self.old) }
    {
        let through = self.applied.through(tx.dot.client);
        if tx.dot.number <= through {
            return Ok((Say::Known { through }, Say::Known { through }));
        }
        if tx.dot.number - through > 1 {
            return Ok((
                Say::OutOfOrder { have: through },
                Say::OutOfOrder { have: through },
            ));
        }
        if let Some(lack) = Vector::first_lack(&self.applied.vector(), &tx.snap) {
            return Ok((lacks(lack), lacks(lack)));
        }
        let limit = self.settings.limit;
        if limit <= self.stamped() {
            return Ok((Say::Full { limit }, Say::Full { limit }));
        }
        let stamp = self.stamp(tx)?;
        Ok((Say::Stamped { stamp }, Say::Stamped { stamp }))
    }
}

// The refusal that names a lack.
fn lacks(lack: Lack) -> Say
    ensures { result ≡ Lacks lack.centre lack.need lack.have }
{
    Say::Lacks {
        centre: lack.centre,
        need: lack.need,
        have: lack.have,
    }
}

// The refusal that names where the base is above the snapshot.
fn pruned(lack: Lack) -> Say
    ensures { result ≡ Pruned lack.centre lack.need lack.have }
{
    Say::Pruned {
        centre: lack.centre,
        base: lack.need,
        at: lack.have,
    }
}
