// What a centre answers to other centres, and to those who stop and start it.
ghost use Rattle.std.specs.Prelude.{◌≡◌, ◌≤◌, true, IfOk, OnErr, length};
ghost use Rattle.dc_talk.specs.declared.say.Say.TheVariants as say;
ghost use Rattle.dc_talk.specs.declared.ask.Ask.TheVariants.{Send, Deliver, Relay, Report, Learn, Prune, Stop, Start};
ghost use Rattle.dc_talk.specs.declared.ask.TheConstants.{MOST_HOPS};
ghost use Rattle.dc_talk.specs.Answers.{is_fit_item, send_answer};
ghost use Rattle.dc_centre.specs.Centre.{Goes, row_over, part_over};
ghost use Rattle.vv_core.specs.Vectors.{at};

use crate::centre::Centre;
use dc_talk::{Records, Say, Sent, SharedRecord};
use ids_core::NoMemory;
use std::alloc::Global;
use vv_core::{Lack, Vector};

impl Centre {
    /// The answer to a send, in two copies.
    pub(crate) fn send(&self, alloc: Global, after: u64, most: u32) -> Result<(Say, Say), NoMemory>
        ensures answer { IfOk result (λ says. says.0 ≡ row_over self.now (Send after most)) }
        ensures copy { IfOk result (λ says. says.1 ≡ says.0) }
    {
        self.hand_on(alloc, self.settings.me, after, most)
    }

    /// The answer to a relay, in two copies.
    pub(crate) fn relay(
        &self,
        alloc: Global,
        origin: u8,
        after: u64,
        most: u32,
    ) -> Result<(Say, Say), NoMemory>
        requires { (1 ≤ origin) × (origin ≤ self.now.settings.n) }
        ensures answer { IfOk result (λ says. says.0 ≡ row_over self.now (Relay origin after most)) }
        ensures copy { IfOk result (λ says. says.1 ≡ says.0) }
    {
        self.hand_on(alloc, origin, after, most)
    }

    // The answer to an ask for the records of an origin, in two copies.
    fn hand_on(
        &self,
        alloc: Global,
        origin: u8,
        after: u64,
        most: u32,
    ) -> Result<(Say, Say), NoMemory>
        requires { (1 ≤ origin) × (origin ≤ self.now.settings.n) }
        ensures answer { IfOk result (λ says. says.0 ≡ send_answer (at self.now.trimmed origin) (part_over self.now origin after most) after) }
        ensures copy { IfOk result (λ says. says.1 ≡ says.0) }
    {
        let from = self.trimmed.get(origin);
        if after < from {
            return Ok((Say::Trimmed { from }, Say::Trimmed { from }));
        }
        let list = Records::from_vec(self.outbox.part(alloc, origin, after - from, most)?);
        let copy = list.copy()?;
        Ok((Say::Records { list: copy }, Say::Records { list }))
    }

    /// The answer to a delivery that fits, in two copies.
    pub(crate) fn deliver(&mut self, item: &SharedRecord, hops: u8) -> Result<(Say, Say), NoMemory>
        requires fit { is_fit_item self.old.settings.n item.now ≡ true }
        requires few { hops ≤ MOST_HOPS }
        ensures answer { IfOk result (λ says. says.0 ≡ row_over self.old (Deliver item.now hops)) }
        ensures copy { IfOk result (λ says. says.1 ≡ says.0) }
        ensures goes { IfOk result (λ says. Goes self.old self.new (Deliver item.now hops) says.0) }
        ensures err { OnErr result (self.new ≡ self.old) }
    {
        let record = item.as_record();
        let have = self.applied.count(record.stamp.centre);
        let seq = u64::from(record.stamp.seq);
        if seq <= have {
            return Ok((Say::Old { have }, Say::Old { have }));
        }
        if seq - have > 1 || record.stamp.centre == self.settings.me {
            return Ok((Say::Gap { have }, Say::Gap { have }));
        }
        if let Some(lack) = Vector::first_lack(&self.applied.vector(), &record.deps) {
            return Ok((waits(lack), waits(lack)));
        }
        let number = record.tx.dot.number;
        let have = self.applied.through(record.tx.dot.client);
        if number.saturating_sub(have) > 1 {
            return Ok((Say::Orphan { number, have }, Say::Orphan { number, have }));
        }
        let sent = Sent {
            item: item.copy()?,
            hops: hops + 1,
        };
        self.outbox.reserve(record.stamp.centre)?;
        let fresh = self.applied.take(record)?;
        self.outbox.put(sent);
        Ok((Say::Applied { fresh }, Say::Applied { fresh }))
    }

    /// The answer to a report, in two copies.
    pub(crate) fn report(&self) -> (Say, Say)
        ensures answer { result.0 ≡ row_over self.now Report }
        ensures copy { result.1 ≡ result.0 }
    {
        let vector = self.applied.vector();
        (Say::Vector { vector }, Say::Vector { vector })
    }

    /// The answer to what another centre reported, in two copies.
    #[inline(always)]
    pub(crate) fn learn(&mut self, from: u8, vector: &Vector) -> (Say, Say)
        requires from { (1 ≤ from) × (from ≤ self.old.settings.n) }
        requires width { length vector.now ≡ self.old.settings.n }
        ensures answer { result.0 ≡ row_over self.old (Learn from vector.now) }
        ensures copy { result.1 ≡ result.0 }
        ensures goes { Goes self.old self.new (Learn from vector.now) result.0 }
    {
        let fresh = self.told.learn(from, vector);
        (Say::Learned { fresh }, Say::Learned { fresh })
    }

    /// The answer to a prune, in two copies: folds what was marked at the one before, marks what is stable
    /// now, and lets the records go that all centres are known to have. Time: what is folded and let go.
    pub(crate) fn prune(&mut self, alloc: Global) -> Result<(Say, Say), NoMemory>
        ensures answer { IfOk result (λ says. says.0 ≡ row_over self.old Prune) }
        ensures copy { IfOk result (λ says. says.1 ≡ says.0) }
        ensures goes { IfOk result (λ says. Goes self.old self.new Prune says.0) }
        ensures err { OnErr result (self.new ≡ self.old) }
    {
        let here = self.applied.vector();
        let vector = self.mark;
        let known = self.told.all_known(&here);
        let gone = self.trimmed.join(&known);
        self.applied.prune(alloc, &vector)?;
        self.outbox.trim(self.trimmed.as_slice(), gone.as_slice());
        self.trimmed = gone;
        let trimmed = gone.get(self.settings.me);
        self.mark = self.told.stable(&here);
        let folded = self.applied.folded();
        Ok((
            Say::Base {
                vector,
                folded,
                trimmed,
            },
            Say::Base {
                vector,
                folded,
                trimmed,
            },
        ))
    }

    /// Stops the centre.
    pub(crate) fn stop(&mut self) -> (Say, Say)
        ensures answer { result.0 ≡ say.Stopped }
        ensures copy { result.1 ≡ result.0 }
        ensures goes { Goes self.old self.new Stop result.0 }
    {
        self.stopped = true;
        (Say::Stopped, Say::Stopped)
    }

    /// Starts the centre.
    pub(crate) fn start(&mut self) -> (Say, Say)
        ensures answer { result.0 ≡ say.Started }
        ensures copy { result.1 ≡ result.0 }
        ensures goes { Goes self.old self.new Start result.0 }
    {
        self.stopped = false;
        (Say::Started, Say::Started)
    }
}

// The refusal that names what a record has to wait for.
fn waits(lack: Lack) -> Say
    ensures { result ≡ say.Waits lack.centre lack.need lack.have }
{
    Say::Waits {
        centre: lack.centre,
        need: lack.need,
        have: lack.have,
    }
}
