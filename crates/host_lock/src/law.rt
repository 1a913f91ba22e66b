// What a seat of a lock's table knows, the rule of the table, and the steps that change a view.
ghost use Rattle.host_lock.specs.Law.{handed, newcomer, joined, spent_seat};
ghost use Rattle.host_lock.specs.Steps.{drew, tried, freed, took, noted, gave};

use atomic_table::{Join, Play, Seat, Shared, Split, Table, TableRule};
use machine_trail::{Entry, Kept, Machine};
use std::alloc::Global;
use std::collections::LinkedList;
use std::marker::PhantomData;
use std::snapshot::Snapshot;

/// What is kept of a pass that a join spent.
pub struct SpentPass<A, Y> {
    pub number: u64,
    pub since: LinkedList<Entry<A, Y>>,
    pub mine: LinkedList<Entry<A, Y>>,
}

/// What a seat knows. The maker of the numbers (`makes`) has drawn `drawn` of at most `most`, and may have the last
/// of them in `hand`. A pass (`calls`) has its `number`, the opening list, what it has seen `since`, the calls made
/// with it (`mine`), the numbers that its failed tries `found`, and the passes that it took in (`past`). One of them
/// may have the turn (`turns`), and then the machine `out` of its slot, which stands for `base` past the opening
/// list. No value of it is made.
pub struct SeatView<A, Y, G> {
    pub makes: bool,
    pub calls: bool,
    pub turns: bool,
    pub out: bool,
    pub number: u64,
    pub drawn: u64,
    pub most: u64,
    pub hand: bool,
    pub settings: Option<G>,
    pub opening: LinkedList<Entry<A, Y>>,
    pub since: LinkedList<Entry<A, Y>>,
    pub mine: LinkedList<Entry<A, Y>>,
    pub found: LinkedList<u64>,
    pub base: LinkedList<Entry<A, Y>>,
    pub past: LinkedList<SpentPass<A, Y>>,
}

/// The rule of a lock's table, for a machine of this type.
pub struct LockRule<M> {
    machine: PhantomData<M>,
}

/// What the table is told once: the machine with its trail as the lock opens, and how many numbers may be drawn.
#[derive(Drop)]
pub struct LockKey<M: Machine> {
    pub kept: Snapshot<Kept<M>>,
    pub callers: u32,
}

impl<M: Machine> TableRule<Option<Kept<M>>, SeatView<M::Ask, M::Say, M::Settings>, LockKey<M>>
    for LockRule<M> {
    ghost use Rattle.std.specs.Prelude.{Some};
    ghost use Rattle.host_lock.specs.Law.{maker, Holds};

    ghost holds = { λ key s. Holds M.reply M.stands M.settings (M.settings key.kept.value.machine) key.kept.value.trail.entries key.callers s };

    ghost first = { λ key. maker (Some (M.settings key.kept.value.machine)) key.kept.value.trail.entries key.callers };
}

/// A lock's table. Its words are the length of the history, the turn (0 where it is free, or else the number of the
/// pass that has it), and how many numbers are drawn. Its slot has the machine with its trail.
pub type LockTable<M> = Table<
    Option<Kept<M>>,
    SeatView<<M as Machine>::Ask, <M as Machine>::Say, <M as Machine>::Settings>,
    LockKey<M>,
    LockRule<M>,
    Global,
>;

/// The part of the table that threads share.
pub type LockShared<M> = Shared<
    Option<Kept<M>>,
    SeatView<<M as Machine>::Ask, <M as Machine>::Say, <M as Machine>::Settings>,
    LockKey<M>,
    LockRule<M>,
>;

/// A seat of the table.
pub type LockSeat<M> = Seat<
    Option<Kept<M>>,
    SeatView<<M as Machine>::Ask, <M as Machine>::Say, <M as Machine>::Settings>,
>;

/// The maker draws the next number.
pub struct DrawNumber;

impl<M: Machine> Play<Option<Kept<M>>, SeatView<M::Ask, M::Say, M::Settings>> for DrawNumber {
    ghost then = { drew };
}

/// A pass tries to take the turn.
pub struct TakeTurn;

impl<M: Machine> Play<Option<Kept<M>>, SeatView<M::Ask, M::Say, M::Settings>> for TakeTurn {
    ghost then = { tried };
}

/// The pass that has the turn frees it.
pub struct FreeTurn;

impl<M: Machine> Play<Option<Kept<M>>, SeatView<M::Ask, M::Say, M::Settings>> for FreeTurn {
    ghost then = { freed };
}

/// The pass that has the turn takes the machine out of its slot.
pub struct SwapOut;

impl<M: Machine> Play<Option<Kept<M>>, SeatView<M::Ask, M::Say, M::Settings>> for SwapOut {
    ghost then = { took M.reply M.stands M.settings };
}

/// The entry with which the trail in hand ends becomes the last one of the history.
pub struct NoteEntry;

impl<M: Machine> Play<Option<Kept<M>>, SeatView<M::Ask, M::Say, M::Settings>> for NoteEntry {
    ghost then = { noted M.reply };
}

/// The pass that has the turn puts the machine back.
pub struct SwapIn;

impl<M: Machine> Play<Option<Kept<M>>, SeatView<M::Ask, M::Say, M::Settings>> for SwapIn {
    ghost then = { gave };
}

/// The maker's number in hand goes to the seat of a new pass.
pub struct SplitPass;

impl<A, Y, G> Split<SeatView<A, Y, G>> for SplitPass {
    ghost left = { handed };

    ghost right = { newcomer };
}

/// A pass takes in another one, which is spent.
pub struct JoinPass;

impl<A, Y, G> Join<SeatView<A, Y, G>> for JoinPass {
    ghost both = { joined };

    ghost spent = { spent_seat };
}
