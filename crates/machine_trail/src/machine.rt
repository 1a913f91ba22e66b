// One-thread machines, and the list of what one was asked.
ghost use Rattle.std.specs.Prelude.{◌≡◌, ◌^◌, ◌<◌, ◌≤◌, ◌↔◌, [], ◌∷◌, ◌++◌, length, slice_get, Some, IfSome, IsNone, IfOk, OnOk, IsOk, OnErr};
ghost use Rattle.machine_trail.specs.History.{entry, IsKept};

use ids_core::NoMemory;
use std::alloc::Global;
use std::marker::Model;

/// A caller's ask, and what it was told.
#[derive(Drop)]
pub struct Entry<A, Y> {
    pub caller: u32,
    pub ask: A,
    pub say: Y,
}

/// A machine that answers one ask after another on one thread. Contracts see its settings, plain data that no call
/// changes; which replies it may give to an ask, as a relation over the settings and the list of entries before; and
/// which lists of entries it stands for.
pub trait Machine: Send + Drop {
    /// What it is asked.
    type Ask: Send + Drop;

    /// What it answers.
    type Say: Send + Drop;

    /// What its replies depend on beside the entries.
    type Settings;

    ghost use Rattle.std.specs.Prelude.{List};
    ghost use Rattle.machine_trail.specs.declared.machine.Entry.{Entry};
    ghost use Rattle.machine_trail.specs.History.{entry};

    // Its settings.
    ghost settings: { Self → Self.Settings };

    // Which reply an ask may have, over the settings and the entries before it.
    ghost reply: { Self.Settings → List (Entry Self.Ask Self.Say) → Self.Ask → Self.Say → Type 0 };

    // Which lists of entries it stands for.
    ghost stands: { Self → List (Entry Self.Ask Self.Say) → Type 0 };

    /// The reply, in two copies: one to keep and one to give. The machine then stands for the list with this entry
    /// at its end. After an `Err` it is as it was.
    fn step(&mut self, ask: &Self::Ask) -> Result<(Self::Say, Self::Say), NoMemory>
        ensures same { settings self.new ≡ settings self.old }
        ensures one { IfOk result (λ r. (log : List (Entry Self.Ask Self.Say)) → stands self.old log → reply (settings self.old) log ask.now r.0 × (r.1 ≡ r.0)) }
        ensures after { IfOk result (λ r. (log : List (Entry Self.Ask Self.Say)) (caller : _) → stands self.old log → stands self.new (log ++ entry caller ask.now r.0 ∷ [])) }
        ensures none { OnErr result (self.new ≡ self.old) };

    /// A copy of an ask.
    fn copy_ask(ask: &Self::Ask) -> Result<Self::Ask, NoMemory>
        ensures { IfOk result (λ a. a ≡ ask.now) };
}

/// What a machine was asked and what it answered, in order. Contracts see beside the entries a number, `spare`:
/// for so many more there is room.
#[derive(Drop)]
pub struct Trail<A, Y> {
    items: Vec<Entry<A, Y>>,
}

impl<A, Y> Model for Trail<A, Y> {
    ghost use Rattle.std.specs.Prelude.{◌-◌, length, vec_capacity};
    ghost use Rattle.machine_trail.specs.History.{TrailView};

    ghost Value = { TrailView A Y };

    ghost view = { λ t. record { entries = t.items.items; spare = vec_capacity t.items - length t.items.items } };
}

impl<A: Drop, Y: Drop> Trail<A, Y> {
    /// The empty trail. It takes no memory.
    pub fn new(alloc: Global) -> Trail<A, Y>
        ensures { result.entries ≡ [] }
    {
        Trail {
            items: Vec::new(alloc),
        }
    }

    /// How many entries there are.
    pub fn len(&self) -> usize
        ensures { result ≡ length self.now.entries }
    {
        self.items.len()
    }

    /// The entries in order.
    pub fn as_slice(&self) -> &[Entry<A, Y>]
        ensures { result.now ≡ self.now.entries }
    {
        self.items.as_slice()
    }

    /// The entry at a place counted from 0: its caller, ask and reply. None exactly where the trail ends before it.
    pub fn get(&self, at: usize) -> Option<(u32, &A, &Y)>
        ensures some { IfSome result (λ e. slice_get self.now.entries at ≡ Some (entry e.0 e.1.now e.2.now)) }
        ensures none { IsNone result ↔ (length self.now.entries ≤ at) }
    {
        match self.items.get(at) {
            Some(item) => Some((item.caller, &item.ask, &item.say)),
            None => None,
        }
    }

    /// Takes room for one more entry, where there is none. The entries stay as they are, also after an `Err`.
    pub fn room(&mut self) -> Result<(), NoMemory>
        ensures same { self.new.entries ≡ self.old.entries }
        ensures room { OnOk result (0 < self.new.spare) }
        ensures sure { 0 < self.old.spare → IsOk result }
    {
        self.items.reserve(1)?;
        Ok(())
    }

    /// Puts an entry at the end. Where there is room it takes no memory. After an `Err` the entries are as they
    /// were.
    // Where the ask and the reply are made they are written to their place at once: both are large to hand over.
    #[inline(always)]
    pub fn push(&mut self, caller: u32, ask: A, say: Y) -> Result<(), NoMemory>
        ensures added { OnOk result (self.new.entries ≡ self.old.entries ++ entry caller ask say ∷ []) }
        ensures sure { 0 < self.old.spare → IsOk result }
        ensures none { OnErr result (self.new.entries ≡ self.old.entries) }
    {
        self.room()?;
        self.items.push_reserved(Entry { caller, ask, say });
        Ok(())
    }
}

/// A machine with all that it was asked.
#[derive(Drop)]
pub struct Kept<M: Machine> {
    pub machine: M,
    pub trail: Trail<M::Ask, M::Say>,
}

// A history stays shorter than 2^62.
const MOST: usize = (1 << 62) - 1;

impl<M: Machine> Kept<M> {
    /// A machine that was asked nothing yet.
    pub fn new(alloc: Global, machine: M) -> Kept<M>
        requires { M.stands machine [] }
        ensures machine { result.machine ≡ machine }
        ensures trail { result.trail.entries ≡ [] }
        ensures kept { IsKept M.reply M.stands M.settings result.machine result.trail.entries }
    {
        Kept {
            machine,
            trail: Trail::new(alloc),
        }
    }

    /// The machine's reply, with which the trail then ends. After an `Err` nothing was asked. A trail stays shorter
    /// than 2^62 entries: one that would grow to that is answered as want of memory.
    pub fn answer(&mut self, caller: u32, ask: &M::Ask) -> Result<M::Say, NoMemory>
        requires { IsKept M.reply M.stands M.settings self.old.machine self.old.trail.entries }
        ensures kept { IsKept M.reply M.stands M.settings self.new.machine self.new.trail.entries }
        ensures same { M.settings self.new.machine ≡ M.settings self.old.machine }
        ensures reply { IfOk result (λ say. M.reply (M.settings self.old.machine) self.old.trail.entries ask.now say) }
        ensures trail { IfOk result (λ say. self.new.trail.entries ≡ self.old.trail.entries ++ entry caller ask.now say ∷ []) }
        ensures short { OnOk result (length self.new.trail.entries < 2 ^ 62) }
        ensures none { OnErr result ((self.new.machine ≡ self.old.machine) × (self.new.trail.entries ≡ self.old.trail.entries)) }
    {
        if self.trail.len() >= MOST {
            return Err(NoMemory);
        }
        self.trail.room()?;
        let copy = M::copy_ask(ask)?;
        let (kept, say) = self.machine.step(ask)?;
        match self.trail.push(caller, copy, kept) {
            Ok(()) => Ok(say),
            Err(_) => unreachable!(),
        }
    }
}
