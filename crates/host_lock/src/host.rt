// A machine that threads share under a lock, each caller with a pass.
ghost use Rattle.std.specs.Prelude.{◌≡◌, ℕ, ◌<◌, ◌≤◌, ◌-◌, ◌^◌, ◌++◌, ◌∷◌, [], length, min, List, Some, true, Ok, IfOk, OnOk, OnErr};
ghost use Rattle.machine_trail.specs.History.{IsKept};
ghost use Rattle.host_lock.specs.Law.{maker};
ghost use Rattle.host_lock.specs.Steps.{IsLockTable};
ghost use Rattle.host_lock.specs.Hosts.{IsOf, IsSamePass, HasCalled, HasTried, fresh_passes, host_view, InOrder, IsWhole};

use crate::law::{JoinPass, LockKey, LockSeat, LockShared, LockTable};
use crate::turns::{call_at_turn, next_seat, try_turn, wait_turn};
use atomic_table::Table;
use ids_core::NoMemory;
use machine_trail::{Kept, Machine};
use std::alloc::Global;
use std::marker::Model;
use std::snapshot::Snapshot;
use std::sync::Wait;

/// A caller's right to call a host, which nobody else has at the same time. Contracts see its number, what it has
/// seen of the host's history past the opening list (`since`), the calls made with it (`mine`), and the numbers
/// that its failed tries for the turn read (`found`), besides the host's table, settings and opening list.
#[derive(Drop)]
pub struct Pass<M: Machine> {
    seat: LockSeat<M>,
    number: u32,
    calls: u64,
}

impl<M: Machine> Model for Pass<M> {
    ghost use Rattle.std.specs.Prelude.{◌≡◌, ◌-◌, ◌^◌, [], length, min};
    ghost use Rattle.host_lock.specs.Hosts.{PassView, pass_view, IsIdle};

    ghost Value = { PassView M.Ask M.Say M.Settings };

    ghost view = { λ p. pass_view p.seat.table_id p.seat.me.0 };

    ghost invariant = { λ p. IsIdle p.seat.me.0 × (p.number ≡ p.seat.me.0.number) × (p.seat.me.1 ≡ []) × (p.calls ≡ min (length p.seat.me.0.mine) (2 ^ 64 - 1)) };
}

impl<M: Machine> Pass<M> {
    /// How many calls were made with it, counted to 2^64 - 1.
    pub fn calls(&self) -> u64
        ensures { result ≡ min (length self.now.mine) (2 ^ 64 - 1) }
    {
        self.calls
    }
}

/// A machine with its trail under a lock. The trail is the history of what the machine was asked: it begins with
/// the opening list, which the machine had answered before the lock. Contracts see the lock's table, the machine's
/// settings, the opening list, and how many passes there are.
#[derive(Drop)]
pub struct Host<M: Machine> {
    table: LockTable<M>,
    callers: u32,
}

impl<M: Machine> Model for Host<M> {
    ghost use Rattle.std.specs.Prelude.{◌≡◌, ◌<◌, [], Some};
    ghost use Rattle.host_lock.specs.Hosts.{HostView};
    ghost use Rattle.host_lock.specs.Steps.{IsLockTable};

    ghost Value = { HostView M.Ask M.Say M.Settings };

    ghost view = { λ h. record { table = h.table.shared.table_id; settings = Some (M.settings h.table.shared.key.kept.value.machine); opening = h.table.shared.key.kept.value.trail.entries; callers = h.callers } };

    ghost invariant = { λ h. IsLockTable h.table.shared.table_id × (h.callers ≡ h.table.shared.key.callers) × (0 < h.callers) };
}

/// What one try for the turn gave.
#[derive(Drop)]
pub enum Tried<T> {
    /// The turn was free, and the call was made.
    Done(T),

    /// The pass with the number `holder` had the turn, and no call was made.
    Busy { holder: u32 },
}

// One pass more.
fn add<M: Machine>(passes: &mut Vec<Pass<M>>, pass: Pass<M>) -> Result<(), NoMemory>
    ensures { OnOk result (passes.new.items ≡ passes.old.items ++ pass ∷ []) }
{
    passes.push(pass)?;
    Ok(())
}

// The passes, each with the next number, from 1.
fn deal<M: Machine>(
    alloc: Global,
    shared: &LockShared<M>,
    maker: &mut LockSeat<M>,
    callers: u32,
) -> Result<Vec<Pass<M>>, NoMemory>
    requires table { (maker.old.table_id ≡ shared.now.table_id) × IsLockTable shared.now.table_id }
    requires maker { (maker.old.me.0.makes ≡ true) × (maker.old.me.0.drawn ≡ 0) × (maker.old.me.0.most ≡ callers) }
    ensures passes { IfOk result (λ ps. ps.items ≡ fresh_passes (host_view shared.now.table_id maker.old.me.0 callers) callers) }
{
    let mut passes = Vec::new(alloc);
    for i in 0..callers {
        let seat = next_seat(shared, maker);
        let pass = Pass {
            seat,
            number: i + 1,
            calls: 0,
        };
        add(&mut passes, pass)?;
    }
    Ok(passes)
}

// A table with the machine and its trail in its slot, and the maker's seat. A trail of 2^62 or more entries is
// answered as want of memory.
fn lay<M: Machine>(
    alloc: Global,
    kept: Kept<M>,
    callers: u32,
) -> Result<(LockTable<M>, LockSeat<M>), NoMemory>
    requires kept { IsKept M.reply M.stands M.settings kept.machine kept.trail.entries }
    requires callers { callers ≤ 4096 }
    ensures table { IfOk result (λ t. (t.1.table_id ≡ t.0.shared.table_id) × IsLockTable t.1.table_id) }
    ensures maker { IfOk result (λ t. t.1.me ≡ (maker (Some (M.settings kept.machine)) kept.trail.entries callers, [])) }
    ensures key { IfOk result (λ t. (t.0.shared.key.kept.value ≡ kept) × (t.0.shared.key.callers ≡ callers)) }
{
    let length = kept.trail.len();
    if length >= 1 << 62 {
        return Err(NoMemory);
    }
    let key = LockKey {
        kept: Snapshot::of(&kept),
        callers,
    };
    let mut slots = Vec::new(alloc);
    if slots.push(Some(kept)).is_err() {
        return Err(NoMemory);
    }
    match Table::new(alloc, &[length as u64, 0, 0], slots, &key) {
        Ok(made) => Ok(made),
        Err(_) => Err(NoMemory),
    }
}

// The host over its table, where its passes could be dealt.
fn open<M: Machine>(
    table: LockTable<M>,
    callers: u32,
    passes: Result<Vec<Pass<M>>, NoMemory>,
) -> Result<(Host<M>, Vec<Pass<M>>), NoMemory>
    requires table { IsLockTable table.shared.table_id × (callers ≡ table.shared.key.callers) × (0 < callers) }
    ensures host { IfOk result (λ r. (r.0.table ≡ table.shared.table_id) × (r.0.settings ≡ Some (M.settings table.shared.key.kept.value.machine)) × (r.0.opening ≡ table.shared.key.kept.value.trail.entries) × (r.0.callers ≡ callers)) }
    ensures passes { IfOk result (λ r. passes ≡ Ok r.1) }
{
    match passes {
        Ok(passes) => Ok((Host { table, callers }, passes)),
        Err(NoMemory) => Err(NoMemory),
    }
}

impl<M: Machine> Host<M> {
    /// Puts a machine with its trail under a lock, for 1 to 4,096 callers. The trail is the opening list. The passes
    /// are numbered from 1 in order: each has seen the opening list, and made no call. A trail of 2^62 or more
    /// entries is answered as want of memory.
    pub fn new(
        alloc: Global,
        kept: Kept<M>,
        callers: u32,
    ) -> Result<(Host<M>, Vec<Pass<M>>), NoMemory>
        requires kept { IsKept M.reply M.stands M.settings kept.machine kept.trail.entries }
        requires callers { (1 ≤ callers) × (callers ≤ 4096) }
        ensures host { IfOk result (λ r. (r.0.settings ≡ Some (M.settings kept.machine)) × (r.0.opening ≡ kept.trail.entries) × (r.0.callers ≡ callers)) }
        ensures passes { IfOk result (λ r. r.1.items ≡ fresh_passes r.0 callers) }
    {
        let (table, mut seat) = lay(alloc, kept, callers)?;
        let passes = deal(alloc, &table.shared, &mut seat, callers);
        drop(seat);
        open(table, callers, passes)
    }

    /// Waits for the turn, and has the machine answer an ask of the pass's caller. What the pass has seen then ends
    /// with this call, and is a history of the one-thread machine. After an `Err` no call was made. The history
    /// stays shorter than 2^62 entries: a call with which it would grow to that is answered as want of memory. It
    /// may wait for ever.
    pub fn call<R: Wait>(
        &self,
        rt: &R,
        pass: &mut Pass<M>,
        ask: &M::Ask,
    ) -> Result<M::Say, NoMemory>
        requires { IsOf self.now pass.old }
        ensures same { IsSamePass pass.old pass.new }
        ensures done { IfOk result (λ say. HasCalled M.reply pass.old ask.now say pass.new) }
        ensures none { OnErr result ((found : List ℕ) × (pass.new ≡ record pass.old { found = pass.old.found ++ found })) }
    {
        wait_turn(rt, &self.table.shared, &mut pass.seat, pass.number);
        let say = call_at_turn(&self.table.shared, &mut pass.seat, pass.number, ask)?;
        pass.calls = pass.calls.saturating_add(1);
        Ok(say)
    }

    /// Tries for the turn once, and where it was free has the machine answer as `call` does. `Busy` comes only where
    /// another pass, the holder, had the turn at this one try: then no call was made, and no memory was taken. It
    /// never waits. After an `Err` the pass is as it was.
    pub fn try_call(&self, pass: &mut Pass<M>, ask: &M::Ask) -> Result<Tried<M::Say>, NoMemory>
        requires { IsOf self.now pass.old }
        ensures same { IsSamePass pass.old pass.new }
        ensures tried { IfOk result (λ t. HasTried M.reply pass.old ask.now t pass.new) }
        ensures none { OnErr result (pass.new ≡ pass.old) }
    {
        let found = try_turn(&self.table.shared, &mut pass.seat, pass.number);
        if found == 0 {
            let say = call_at_turn(&self.table.shared, &mut pass.seat, pass.number, ask)?;
            pass.calls = pass.calls.saturating_add(1);
            Ok(Tried::Done(say))
        } else {
            Ok(Tried::Busy {
                holder: found as u32,
            })
        }
    }

    /// Gives the machine with its trail back, where all passes of this host are given, in order. The trail is the
    /// host's whole history: past the opening list each pass has its calls there, and there are no others. It takes
    /// no memory.
    pub fn close(self, mut passes: Vec<Pass<M>>) -> Kept<M>
        requires all { InOrder self 1 passes.items × (length passes.items ≡ self.callers) }
        ensures whole { IsWhole M.reply self passes.items result.trail.entries }
        ensures kept { IsKept M.reply M.stands M.settings result.machine result.trail.entries }
        ensures settings { self.settings ≡ Some (M.settings result.machine) }
    {
        let Host { table, callers: _ } = self;
        let Some(last) = passes.pop() else {
            unreachable!()
        };
        let Pass {
            mut seat,
            number: _,
            calls: _,
        } = last;
        while let Some(pass) = passes.pop() {
            let Pass {
                seat: spent,
                number: _,
                calls: _,
            } = pass;
            table.shared.join_seat::<JoinPass>(&mut seat, spent);
        }
        let mut closed = table.close_with(seat);
        let slot = closed.take(0);
        closed.free();
        match slot {
            Some(kept) => kept,
            None => unreachable!(),
        }
    }
}
