// A door to the centres on one thread.
ghost use Rattle.std.specs.Prelude.{◌≡◌, ◌≤◌, ◌<◌, ◌+◌, ◌^◌, ℕ, true, IfOk, IfSome, OnOk, OnErr, [], ◌∷◌, ◌++◌, length, take, All};
ghost use Rattle.machine_trail.specs.History.{entry};
ghost use Rattle.dc_talk.specs.Answers.{answer, History};
ghost use Rattle.dc_talk.specs.Doors.{IsBehind, HasAsked, HasNotAsked, belongs};
ghost use Rattle.dc_door.specs.Centres.{seen_of, all_seen, IsKeptCentre};
ghost use Rattle.dc_door.specs.KeptDoors.{centre_at, trail_at, shown_of, place_of, lengths_of, begun, HasAnswered};

use dc_centre::Centre;
use dc_talk::{Ask, Door, Say, Settings};
use ids_core::{MOST_CENTRES, NoMemory};
use list_core::List;
use machine_trail::{Entry, Kept};
use std::marker::Model;

// How many centres there are at most.
const MOST: usize = MOST_CENTRES as usize;

/// What no ask through a `KeptDoor` changes: the actor, and the settings of the centres in order.
pub struct KeptPlace {
    pub actor: u32,
    pub settings: List<Settings>,
}

/// A door on one thread that owns the centres, numbered from 1 in their order. It is alone, and knows of each
/// centre the whole trail. Contracts see the actor, the settings and the trail of each centre, and how many entries
/// of each trail were there before those that were made for the actor. Each centre stands for its trail, a history
/// of the one-thread centre with its settings.
#[derive(Drop)]
pub struct KeptDoor {
    actor: u32,
    kept: Vec<Kept<Centre>>,
    since: [usize; MOST],
}

impl Model for KeptDoor {
    ghost use Rattle.std.specs.Prelude.{length, take};
    ghost use Rattle.dc_door.specs.Centres.{all_seen};
    ghost use Rattle.dc_door.specs.KeptDoors.{KeptView, IsKeptDoor};
    ghost use Rattle.tx_core.specs.States.{state_codes};

    ghost Value = { KeptView };

    ghost coded = { Prim.hlevel state_codes };

    ghost view = { λ d. record { actor = d.actor; centres = all_seen d.kept.items; since = take (length d.kept.items) d.since } };

    ghost invariant = { λ d. IsKeptDoor d.kept.items (take (length d.kept.items) d.since) };
}

impl KeptDoor {
    /// The door of an actor to 1 to `MOST_CENTRES` centres, each with a trail for which it stands. Nothing was
    /// made there for this actor. It takes no memory.
    pub fn new(kept: Vec<Kept<Centre>>, actor: u32) -> KeptDoor
        requires number { (1 ≤ length kept.items) × (length kept.items ≤ MOST_CENTRES) }
        requires kept { All IsKeptCentre kept.items }
        ensures door { result ≡ begun actor (all_seen kept.items) }
        ensures none { (i : ℕ) → (shown_of result).made i ≡ [] }
    {
        let since = lengths(&kept);
        KeptDoor { actor, kept, since }
    }

    /// Makes this the actor, for whom nothing was made there yet. No trail changes. It takes no memory.
    pub fn set(&mut self, actor: u32)
        ensures door { self.new ≡ begun actor self.old.centres }
        ensures none { (i : ℕ) → (shown_of self.new).made i ≡ [] }
    {
        self.actor = actor;
        self.since = lengths(&self.kept);
    }

    /// A law: each trail is a history of the one-thread centre with its settings. It does nothing.
    pub fn histories(&self)
        ensures { All (λ centre. History centre.settings centre.entries) self.now.centres }
    {
        let _kept = &self.kept;
    }

    /// The entries of a centre's trail, and none for a number that is no centre's. It takes no memory.
    pub fn entries(&self, centre: u8) -> &[Entry<Ask, Say>]
        ensures { result.now ≡ trail_at self.now.centres centre }
    {
        if centre == 0 {
            return &[];
        }
        match self.kept.get(usize::from(centre) - 1) {
            Some(one) => one.trail.as_slice(),
            None => &[],
        }
    }

    /// The centres in order, each with its trail, for which it stands. It takes no memory.
    pub fn part(self) -> Vec<Kept<Centre>>
        ensures centres { all_seen result.items ≡ self.centres }
        ensures kept { All IsKeptCentre result.items }
    {
        self.kept
    }
}

// How many entries each trail has, and 0 behind them.
fn lengths(kept: &[Kept<Centre>]) -> [usize; MOST]
    requires { length kept.now ≤ MOST_CENTRES }
    ensures { take (length kept.now) result ≡ lengths_of (all_seen kept.now) }
{
    let mut lengths = [0; MOST];
    'kept: for (place, one) in kept.iter().enumerate() {
        lengths[place] = one.trail.len();
    }
    lengths
}

// Has one centre answer an ask of a caller. After an `Err` it is as it was.
fn answer_one(kept: &mut Kept<Centre>, caller: u32, ask: &Ask) -> Result<Say, NoMemory>
    requires { IsKeptCentre kept.old }
    ensures kept { IsKeptCentre kept.new }
    ensures say { IfOk result (λ say. say ≡ answer (seen_of kept.old).settings (seen_of kept.old).entries ask.now) }
    ensures entry { IfOk result (λ say. seen_of kept.new ≡ record (seen_of kept.old) { entries = (seen_of kept.old).entries ++ entry caller ask.now say ∷ [] }) }
    ensures short { OnOk result (length (seen_of kept.old).entries + 1 < 2 ^ 62) }
    ensures none { OnErr result (seen_of kept.new ≡ seen_of kept.old) }
{
    kept.answer(caller, ask)
}

// Has the centre at a place answer an ask of a caller. After an `Err` all is as it was.
fn answer_at(
    kept: &mut Vec<Kept<Centre>>,
    place: usize,
    caller: u32,
    ask: &Ask,
) -> Result<Say, NoMemory>
    requires place { place < length kept.old.items }
    requires kept { All IsKeptCentre kept.old.items }
    ensures kept { All IsKeptCentre kept.new.items }
    ensures number { length kept.new.items ≡ length kept.old.items }
    ensures answered { IfOk result (λ say. HasAnswered (all_seen kept.old.items) (all_seen kept.new.items) place (entry caller ask.now say)) }
    ensures none { OnErr result (all_seen kept.new.items ≡ all_seen kept.old.items) }
{
    answer_one(&mut kept[place], caller, ask)
}

impl Door for KeptDoor {
    type Place = KeptPlace;

    ghost place = { place_of };

    ghost shown = { shown_of };

    /// Has a centre answer an ask of the actor: the answer that is defined over its trail, with which the trail
    /// then ends. After an `Err` nothing was asked. Each trail stays shorter than 2^62 entries: an ask with which
    /// one would grow to that is answered with want of memory.
    fn ask(&mut self, centre: u8, ask: &Ask) -> Result<Say, NoMemory>
        requires { IsBehind (shown_of self.old) centre }
        ensures place { place_of self.new ≡ place_of self.old }
        ensures row { IfOk result (λ say. belongs ask.now say ≡ true) }
        ensures asked { IfOk result (λ say. HasAsked (shown_of self.old) (shown_of self.new) centre (entry self.old.actor ask.now say)) }
        ensures none { OnErr result (HasNotAsked (shown_of self.old) (shown_of self.new)) }
        ensures answer { IfOk result (λ say. IfSome (centre_at self.old.centres centre) (λ one. say ≡ answer one.settings one.entries ask.now)) }
    {
        answer_at(&mut self.kept, usize::from(centre) - 1, self.actor, ask)
    }
}
