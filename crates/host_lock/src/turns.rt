// The steps of a lock's table, a call for each kind, and one call of the machine under the turn.
ghost use Rattle.std.specs.Prelude.{◌≡◌, ◌≢◌, ℕ, ◌<◌, ◌≤◌, true, false, List, [], ◌∷◌, Some, None, IfOk, OnErr};
ghost use Rattle.host_lock.specs.Law.{handed, newcomer};
ghost use Rattle.host_lock.specs.Steps.{IsLockTable, HasSwappedOut, MayNote, Noted, MaySwapIn, with_new, at_turn, off_turn, finding, found_more, emptied};
ghost use Rattle.host_lock.specs.Hosts.{HasWorked, rested};

use crate::law::{
    DrawNumber, FreeTurn, LockSeat, LockShared, NoteEntry, SplitPass, SwapIn, SwapOut, TakeTurn,
};
use ids_core::NoMemory;
use machine_trail::{Kept, Machine};
use std::sync::Wait;
use std::sync::atomic::AtomicU64;
use std::thread;
use std::time::Duration;

// The words of the table.
const LENGTH: usize = 0;

const TURN: usize = 1;

const DRAWN: usize = 2;

// The slot of the machine.
const SLOT: usize = 0;

// So often a caller yields between two tries before it sleeps between them, for so many microseconds at most.
const YIELDS: u32 = 50;

const NAP_MICROS: u64 = 50;

/// The seat of a new pass, with the next number.
pub fn next_seat<M: Machine>(shared: &LockShared<M>, maker: &mut LockSeat<M>) -> LockSeat<M>
    requires table { (maker.old.table_id ≡ shared.now.table_id) × IsLockTable shared.now.table_id }
    requires makes { (maker.old.me.0.makes ≡ true) × (maker.old.me.0.drawn < maker.old.me.0.most) }
    ensures maker { (maker.new.table_id ≡ shared.now.table_id) × (maker.new.me ≡ (handed (with_new maker.old.me.0), maker.old.me.1)) }
    ensures seat { (result.table_id ≡ shared.now.table_id) × (result.me ≡ (newcomer (with_new maker.old.me.0), [])) }
{
    shared.fetch_add::<DrawNumber>(maker, DRAWN, 1);
    shared.split_seat::<SplitPass>(maker)
}

/// One try for the turn: 0 where the seat has it now, or else the number of the pass that has it.
pub fn try_turn<M: Machine>(shared: &LockShared<M>, seat: &mut LockSeat<M>, number: u32) -> u64
    requires table { (seat.old.table_id ≡ shared.now.table_id) × IsLockTable shared.now.table_id }
    requires calls { (seat.old.me.0.calls ≡ true) × (seat.old.me.0.turns ≡ false) × (number ≡ seat.old.me.0.number) }
    ensures table { seat.new.table_id ≡ shared.now.table_id }
    ensures won { result ≡ 0 → seat.new.me ≡ (at_turn seat.old.me.0, seat.old.me.1) }
    ensures lost { result ≢ 0 → (seat.new.me ≡ (finding seat.old.me.0 result, seat.old.me.1)) × (result ≤ 4096) × (result ≢ seat.old.me.0.number) }
{
    shared.compare_exchange::<TakeTurn>(seat, TURN, 0, u64::from(number))
}

// Lets others go on after so many tries: a caller yields at first, and then sleeps, so that callers that wait take no
// processor from those that work.
fn pause<R: Wait>(rt: &R, tries: u32) {
    if tries < YIELDS {
        thread::yield_now();
    } else {
        AtomicU64::new(0).park_timeout(rt, 0, Duration::from_micros(NAP_MICROS));
    }
}

/// Tries until the seat has the turn.
pub fn wait_turn<M: Machine, R: Wait>(
    rt: &R,
    shared: &LockShared<M>,
    seat: &mut LockSeat<M>,
    number: u32,
)
    requires table { (seat.old.table_id ≡ shared.now.table_id) × IsLockTable shared.now.table_id }
    requires calls { (seat.old.me.0.calls ≡ true) × (seat.old.me.0.turns ≡ false) × (number ≡ seat.old.me.0.number) }
    ensures table { seat.new.table_id ≡ shared.now.table_id }
    ensures won { (found : List ℕ) × (seat.new.me ≡ (at_turn (found_more seat.old.me.0 found), seat.old.me.1)) }
{
    let mut tries = 0;
    for _ in rt.forever() {
        if try_turn(shared, seat, number) == 0 {
            return;
        }
        pause(rt, tries);
        tries = tries.saturating_add(1);
    }
    unreachable!()
}

/// The turn is free again.
pub fn free_turn<M: Machine>(shared: &LockShared<M>, seat: &mut LockSeat<M>)
    requires table { (seat.old.table_id ≡ shared.now.table_id) × IsLockTable shared.now.table_id }
    requires turns { (seat.old.me.0.turns ≡ true) × (seat.old.me.0.out ≡ false) }
    ensures table { seat.new.table_id ≡ shared.now.table_id }
    ensures freed { seat.new.me ≡ (off_turn seat.old.me.0, seat.old.me.1) }
{
    shared.store::<FreeTurn>(seat, TURN, 0);
}

/// Takes the machine with its trail out of the slot: they stand for the history.
pub fn swap_out<M: Machine>(shared: &LockShared<M>, seat: &mut LockSeat<M>) -> Kept<M>
    requires table { (seat.old.table_id ≡ shared.now.table_id) × IsLockTable shared.now.table_id }
    requires turns { (seat.old.me.0.turns ≡ true) × (seat.old.me.0.out ≡ false) × (seat.old.me.1 ≡ []) }
    ensures table { seat.new.table_id ≡ shared.now.table_id }
    ensures took { HasSwappedOut M.reply M.stands M.settings seat.old.me.0 result seat.new.me }
{
    shared.load::<SwapOut>(seat, TURN);
    match shared.exchange(seat, SLOT, None) {
        Some(kept) => kept,
        None => unreachable!(),
    }
}

/// Lays the machine with its trail into the slot, which the seat still has in hand.
pub fn lay_in<M: Machine>(shared: &LockShared<M>, seat: &mut LockSeat<M>, kept: Kept<M>)
    requires table { (seat.old.table_id ≡ shared.now.table_id) × IsLockTable shared.now.table_id }
    requires slot { seat.old.me.1 ≡ (0, None) ∷ [] }
    ensures table { seat.new.table_id ≡ shared.now.table_id }
    ensures slot { seat.new.me ≡ (seat.old.me.0, (0, Some kept) ∷ []) }
{
    let _ = shared.exchange(seat, SLOT, Some(kept));
}

/// The entry with which the trail in hand ends becomes the last one of the history.
pub fn note<M: Machine>(shared: &LockShared<M>, seat: &mut LockSeat<M>)
    requires table { (seat.old.table_id ≡ shared.now.table_id) × IsLockTable shared.now.table_id }
    requires out { seat.old.me.0.out ≡ true }
    requires entry { MayNote M.reply seat.old.me }
    ensures table { seat.new.table_id ≡ shared.now.table_id }
    ensures noted { Noted M.reply seat.old.me seat.new.me }
{
    shared.fetch_add::<NoteEntry>(seat, LENGTH, 1);
}

/// Gives the slot back, with the machine in it.
pub fn swap_in<M: Machine>(shared: &LockShared<M>, seat: &mut LockSeat<M>)
    requires table { (seat.old.table_id ≡ shared.now.table_id) × IsLockTable shared.now.table_id }
    requires out { seat.old.me.0.out ≡ true }
    requires slot { MaySwapIn M.reply M.stands M.settings seat.old.me }
    ensures table { seat.new.table_id ≡ shared.now.table_id }
    ensures gave { seat.new.me ≡ (emptied seat.old.me.0, []) }
{
    shared.load::<SwapIn>(seat, TURN);
}

/// The seat that has the turn makes one call, and frees the turn. After an `Err` no entry was made.
pub fn call_at_turn<M: Machine>(
    shared: &LockShared<M>,
    seat: &mut LockSeat<M>,
    number: u32,
    ask: &M::Ask,
) -> Result<M::Say, NoMemory>
    requires table { (seat.old.table_id ≡ shared.now.table_id) × IsLockTable shared.now.table_id }
    requires turns { (seat.old.me.0.turns ≡ true) × (seat.old.me.0.out ≡ false) × (seat.old.me.1 ≡ []) }
    requires number { number ≡ seat.old.me.0.number }
    ensures table { seat.new.table_id ≡ shared.now.table_id }
    ensures done { IfOk result (λ say. HasWorked M.reply seat.old.me.0 ask.now say seat.new.me) }
    ensures none { OnErr result (seat.new.me ≡ (rested seat.old.me.0, [])) }
{
    let mut kept = swap_out(shared, seat);
    match kept.answer(number, ask) {
        Ok(say) => {
            lay_in(shared, seat, kept);
            note(shared, seat);
            swap_in(shared, seat);
            free_turn(shared, seat);
            Ok(say)
        }
        Err(NoMemory) => {
            lay_in(shared, seat, kept);
            swap_in(shared, seat);
            free_turn(shared, seat);
            Err(NoMemory)
        }
    }
}
