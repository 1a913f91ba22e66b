// A centre on one thread.
ghost use Rattle.std.specs.Prelude.{◌≡◌, ◌&&◌, not, ◌≤◌, ◌↔◌, ℕ, IfOk, OnErr, IsTrue, List, [], ◌∷◌, ◌++◌, true, false};
ghost use Rattle.list_core.specs.Members.{In};
ghost use Rattle.ids_core.specs.declared.limits.TheConstants.{MOST_CENTRES, MOST_RECORDS};
ghost use Rattle.tx_core.specs.declared.tx.Record.{Record as RecordOf};
ghost use Rattle.dc_talk.specs.Answers.{answer, fits, is_switch};
ghost use Rattle.dc_talk.specs.Entries.{Entry};
ghost use Rattle.dc_talk.specs.Records.{vector};
ghost use Rattle.dc_talk.specs.Trails.{applied};

use crate::applied::Applied;
use crate::outbox::Outbox;
use dc_talk::{Ask, Say, Settings};
use ids_core::NoMemory;
use k_stable::Told;
use machine_trail::Machine;
use std::alloc::Global;
use std::marker::Model;
use vv_core::{Stamp, Vector};

/// A data centre: a full replica that answers one ask after another (Middleware 2015). Contracts see
/// its settings, what it keeps of the records that it applied, what it was told of the other centres,
/// how far it has pruned, the records of each origin that it did not let go, and whether it is stopped. It keeps no
/// list of all that it applied, and stands for the trail of what it was asked and answered.
#[derive(Drop)]
pub struct Centre {
    pub(crate) settings: Settings,
    pub(crate) applied: Applied,
    pub(crate) told: Told,
    pub(crate) mark: Vector,
    pub(crate) trimmed: Vector,
    pub(crate) outbox: Outbox,
    pub(crate) stopped: bool,
}

impl Model for Centre {
    ghost use Rattle.tx_core.specs.States.{state_codes};
    ghost use Rattle.dc_centre.specs.Centre.{CentreView, IsCentre};

    ghost Value = { CentreView };

    ghost coded = { Prim.hlevel state_codes };

    ghost view = { λ c. record { settings = c.settings; applied = c.applied; told = c.told; mark = c.mark; trimmed = c.trimmed; outbox = c.outbox.rows; down = c.stopped } };

    ghost invariant = { λ c. IsCentre c.settings c.applied c.told c.mark c.trimmed };
}

impl Centre {
    ghost use Rattle.dc_centre.specs.Centre.{StandsFor, Goes, row_over, up_over};

    /// Centre `me` among `n`, with nothing applied. Updates are stable once `k` centres know them, and
    /// it stamps at most `limit` transactions.
    pub fn new(alloc: Global, me: u8, n: u8, k: u8, limit: u64) -> Result<Centre, NoMemory>
        requires centre { (1 ≤ me) × (me ≤ n) }
        requires width { n ≤ MOST_CENTRES }
        requires known { (1 ≤ k) × (k ≤ n) }
        requires most { (1 ≤ limit) × (limit ≤ MOST_RECORDS) }
        ensures settings { IfOk result (λ centre. centre.settings ≡ record { me = me; n = n; k = k; limit = limit }) }
        ensures stands { IfOk result (λ centre. StandsFor centre []) }
    {
        Ok(Centre {
            settings: Settings { me, n, k, limit },
            applied: Applied::new(alloc, n)?,
            told: Told::new(me, n, k),
            mark: Vector::zero(n),
            trimmed: Vector::zero(n),
            outbox: Outbox::new(alloc)?,
            stopped: false,
        })
    }

    /// Whether the record of a stamp is here, over every trail that the centre stands for.
    pub fn has(&self, stamp: &Stamp) -> bool
        ensures { (trail : List Entry) → StandsFor self.now trail → IsTrue result ↔ ((r : RecordOf) × In r (applied self.now.settings.n trail) × (r.stamp ≡ stamp.now)) }
    {
        self.applied.has(stamp)
    }

    /// How many records of each centre are here, over every trail that the centre stands for.
    pub fn vector(&self) -> Vector
        ensures { (trail : List Entry) → StandsFor self.now trail → result ≡ vector self.now.settings.n (applied self.now.settings.n trail) }
    {
        self.applied.vector()
    }

    /// Answers an ask, in two equal copies: over every trail that the centre stands for, the answer
    /// is the one that is defined for that trail, and the centre then stands for the trail with this
    /// entry. Memory is taken before anything changes. Time: a fetch or a delta takes that of its object's
    /// operations that are not folded yet, a prune that of what it folds and lets go, and no other ask
    /// any that grows with the history.
    // Where the entry is put both answers are written to their place at once: they are large to hand over.
    #[inline(always)]
    pub fn step(&mut self, alloc: Global, ask: &Ask) -> Result<(Say, Say), NoMemory>
        ensures answer { IfOk result (λ says. (trail : List Entry) → StandsFor self.old trail → says.0 ≡ answer self.old.settings trail ask.now) }
        ensures copy { IfOk result (λ says. says.1 ≡ says.0) }
        ensures stands { IfOk result (λ says. (trail : List Entry) (caller : ℕ) → StandsFor self.old trail → StandsFor self.new (trail ++ record { caller = caller; ask = ask.now; say = says.0 } ∷ [])) }
        ensures settings { self.new.settings ≡ self.old.settings }
        ensures err { OnErr result (self.new ≡ self.old) }
    {
        if !ask.fits(self.settings.n) {
            return Ok((Say::Misfit, Say::Misfit));
        }
        if self.is_down_to(ask) {
            return Ok((Say::Down, Say::Down));
        }
        self.reply(alloc, ask)
    }

    // Whether the centre is stopped, and the ask neither stops nor starts it.
    fn is_down_to(&self, ask: &Ask) -> bool
        ensures { result ≡ (self.now.down && not (is_switch ask.now)) }
    {
        self.stopped && !is_switch(ask)
    }

    // The answer of a running centre to an ask that fits, in two copies.
    #[inline(always)]
    fn reply(&mut self, alloc: Global, ask: &Ask) -> Result<(Say, Say), NoMemory>
        requires { fits self.old.settings.n ask.now ≡ true }
        ensures answer { IfOk result (λ says. says.0 ≡ row_over self.old ask.now) }
        ensures copy { IfOk result (λ says. says.1 ≡ says.0) }
        ensures goes { IfOk result (λ says. Goes self.old self.new ask.now says.0) }
        ensures settings { self.new.settings ≡ self.old.settings }
        ensures err { OnErr result (self.new ≡ self.old) }
    {
        match ask {
            Ask::Hello { client, need } => Ok(self.welcome(*client, need)),
            Ask::Refresh { client, at } => Ok(self.snap(*client, at)),
            Ask::Fetch { object, at } => self.object(alloc, object, at),
            Ask::Delta { object, from, at } => self.changes(alloc, object, from, at),
            Ask::Commit { tx } => self.commit(tx.as_tx()),
            Ask::Send { after, most } => self.send(alloc, *after, *most),
            Ask::Deliver { item, hops } => self.deliver(item, *hops),
            Ask::Relay {
                origin,
                after,
                most,
            } => self.relay(alloc, *origin, *after, *most),
            Ask::Report => Ok(self.report()),
            Ask::Learn { from, vector } => Ok(self.learn(*from, vector)),
            Ask::Prune => self.prune(alloc),
            Ask::Stop => Ok(self.stop()),
            Ask::Start => Ok(self.start()),
        }
    }
}

// Whether a stopped centre answers the ask.
fn is_switch(ask: &Ask) -> bool
    ensures { result ≡ is_switch ask.now }
{
    matches!(ask, Ask::Stop | Ask::Start)
}

impl Machine for Centre {
    type Ask = Ask;

    type Say = Say;

    type Settings = Settings;

    ghost use Rattle.dc_talk.specs.Answers.{IsAnswer};
    ghost use Rattle.dc_centre.specs.Centre.{CentreView, StandsFor};

    ghost settings = { λ (c : CentreView). c.settings };

    ghost reply = { IsAnswer };

    ghost stands = { StandsFor };

    #[inline(always)]
    fn step(&mut self, ask: &Ask) -> Result<(Say, Say), NoMemory> {
        let alloc = self.outbox.allocator();
        Centre::step(self, alloc, ask)
    }

    #[inline(always)]
    fn copy_ask(ask: &Ask) -> Result<Ask, NoMemory> {
        ask.copy()
    }
}
