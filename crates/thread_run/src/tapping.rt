// The taps of a phase, opened before it and closed behind it.
ghost use Rattle.std.specs.Prelude.{◌≡◌, ◌≤◌, List, [], ◌∷◌, ◌++◌, length, take, replicate, All, IfOk, OnOk};
ghost use Rattle.std.specs.Bool.{OnFalse};
ghost use Rattle.read_tap.specs.declared.limits.TheConstants.{MOST_READERS};
ghost use Rattle.script_core.specs.declared.taps.TapState.{TapState as TapStateView};
ghost use Rattle.thread_run.specs.Taps.{row_lists, widened, IsWide, AreOpened, AreOpenFor, IsFirstOf, HasRow, IsClosed, ReadsOf, AreReadsOf, HasClosedNext, HaveClosed};

use ids_core::NoMemory;
use phase_play::Taps;
use read_tap::{Tap, TapFeeder, TapReader};
use script_core::{Show, TapState};
use std::alloc::Global;
use std::sync::Wait;

// ---- before the phase

// The same show again, with the same states.
fn show_again(show: &Show) -> Result<Show, NoMemory>
    ensures { IfOk result (λ again. again ≡ show.now) }
{
    Ok(Show {
        vector: show.vector,
        states: show.states.copy()?,
    })
}

// The taps of the first `n` centres.
fn first_of(taps: &[TapState], n: u8) -> &[TapState]
    ensures { result.now ≡ take n taps.now }
{
    &taps[..taps.len().min(usize::from(n))]
}

// Whether one of these taps has an object.
fn have_objects(taps: &[TapState]) -> bool
    ensures { OnFalse result (All (λ tap. tap.objects ≡ []) taps.now) }
{
    'taps: for tap in taps {
        if !tap.objects.is_empty() {
            return true;
        }
    }
    false
}

// A row without readers for each of so many threads.
fn empty_rows(alloc: Global, threads: u32) -> Result<Vec<Vec<TapReader>>, NoMemory>
    ensures { IfOk result (λ rows. row_lists rows.items ≡ replicate threads []) }
{
    let mut rows = Vec::with_capacity(alloc, threads as usize)?;
    'threads: for _thread in 0..threads {
        rows.push(Vec::new(alloc))?;
    }
    Ok(rows)
}

// Puts a reader behind each row, in order.
fn add_readers(rows: &mut Vec<Vec<TapReader>>, readers: Vec<TapReader>) -> Result<(), NoMemory>
    requires { length readers.items ≡ length rows.old.items }
    ensures { OnOk result (row_lists rows.new.items ≡ widened (row_lists rows.old.items) readers.items) }
{
    let mut place = 0;
    'readers: for reader in readers {
        let row = &mut rows[place];
        row.push(reader)?;
        place += 1;
    }
    Ok(())
}

// Opens a tap with what it shows, for so many threads: its feeder stands behind the others, and each row has a reader
// of it. It may wait.
fn open_one<'a, R: Wait>(
    alloc: Global,
    rt: &'a R,
    tap: &TapState,
    threads: u32,
    opened: &mut Taps<'a, R>,
) -> Result<(), NoMemory>
    requires wide { IsWide tap.now }
    requires threads { (1 ≤ threads) × (threads ≤ MOST_READERS) }
    requires rows { length opened.old.rows.items ≡ threads }
    ensures { OnOk result ((taps : List TapStateView) → AreOpened taps threads opened.old.feeders.items opened.old.rows.items → AreOpened (taps ++ tap.now ∷ []) threads opened.new.feeders.items opened.new.rows.items) }
{
    let (feeder, readers) = Tap::open(
        alloc,
        rt,
        tap.objects.copy()?,
        show_again(&tap.show)?,
        threads,
    )?;
    add_readers(&mut opened.rows, readers)?;
    opened.feeders.push(feeder)?;
    Ok(())
}

// Opens these taps, in order. It may wait.
fn open_all<'a, R: Wait>(
    alloc: Global,
    rt: &'a R,
    taps: &[TapState],
    threads: u32,
) -> Result<Taps<'a, R>, NoMemory>
    requires wide { All IsWide taps.now }
    requires threads { (1 ≤ threads) × (threads ≤ MOST_READERS) }
    ensures { IfOk result (λ opened. AreOpened taps.now threads opened.feeders.items opened.rows.items) }
{
    let mut opened = Taps {
        feeders: Vec::with_capacity(alloc, taps.len())?,
        rows: empty_rows(alloc, threads)?,
    };
    'taps: for tap in taps {
        open_one(alloc, rt, tap, threads, &mut opened)?;
    }
    Ok(opened)
}

/// Opens the taps of the first `n` centres with what they show, for so many threads of clients; none where none of them
/// has an object. An `Err` is want of memory. It may wait.
pub(crate) fn open_taps<'a, R: Wait>(
    alloc: Global,
    rt: &'a R,
    n: u8,
    taps: &[TapState],
    threads: u32,
) -> Result<Taps<'a, R>, NoMemory>
    requires wide { All IsWide (take n taps.now) }
    requires threads { (1 ≤ threads) × (threads ≤ MOST_READERS) }
    ensures { IfOk result (λ opened. AreOpenFor n threads taps.now opened.feeders.items opened.rows.items) }
{
    let first = first_of(taps, n);
    if have_objects(first) {
        return open_all(alloc, rt, first, threads);
    }
    open_all(alloc, rt, &taps[..0], threads)
}

// ---- behind it

// The first reader of each row, and what is left of the rows.
#[derive(Drop)]
pub(crate) struct FirstReaders {
    first: Vec<TapReader>,
    rest: Vec<Vec<TapReader>>,
}

// One row more.
fn add_row(parts: &mut FirstReaders, mut row: Vec<TapReader>) -> Result<(), NoMemory>
    ensures { OnOk result (HasRow parts.old row.items parts.new) }
{
    if !row.is_empty() {
        let reader = row.remove(0);
        parts.first.push(reader)?;
    }
    parts.rest.push(row)?;
    Ok(())
}

// Cuts the first reader off each row.
fn cut_readers(alloc: Global, rows: Vec<Vec<TapReader>>) -> Result<FirstReaders, NoMemory>
    ensures { IfOk result (IsFirstOf (row_lists rows.items)) }
{
    let mut parts = FirstReaders {
        first: Vec::new(alloc),
        rest: Vec::new(alloc),
    };
    'rows: for row in rows {
        add_row(&mut parts, row)?;
    }
    Ok(parts)
}

// A tap behind its phase: it shows the last show of its feeder, of whose shows each reader has seen the first ones. It
// waits for readers that look just then. An `Err` is want of memory, or that the tap could not be closed.
fn close_one<R: Wait>(
    tap: TapState,
    feeder: TapFeeder<'_, R>,
    readers: Vec<TapReader>,
) -> Result<TapState, NoMemory>
    requires { All (ReadsOf feeder) readers.items }
    ensures { IfOk result (IsClosed tap feeder.entry readers.items) }
{
    match Tap::close(feeder, readers) {
        Ok(shows) => Ok(TapState {
            objects: tap.objects,
            show: show_again(shows.last_show())?,
        }),
        Err(_) => Err(NoMemory),
    }
}

// The next tap behind its phase, with what is left of those that were opened; it stays where none is left. An `Err` is
// want of memory, or that the tap could not be closed.
fn close_next<'a, R: Wait>(
    alloc: Global,
    tap: TapState,
    opened: Taps<'a, R>,
) -> Result<(TapState, Taps<'a, R>), NoMemory>
    requires { All (AreReadsOf opened.feeders.items) (row_lists opened.rows.items) }
    ensures { IfOk result (λ done. HasClosedNext tap opened.entry.feeders.items (row_lists opened.entry.rows.items) done.0 done.1.feeders.items (row_lists done.1.rows.items)) }
{
    let Taps { mut feeders, rows } = opened;
    if feeders.is_empty() {
        return Ok((tap, Taps { feeders, rows }));
    }
    let feeder = feeders.remove(0);
    let parts = cut_readers(alloc, rows)?;
    let later = close_one(tap, feeder, parts.first)?;
    let rest = Taps {
        feeders,
        rows: parts.rest,
    };
    Ok((later, rest))
}

/// Closes the taps of a phase, with the readers of all its threads: each shows the last show that was fed. One that was not
/// opened stays as it is. An `Err` is want of memory, or that a tap could not be closed: they are gone. It may wait.
pub(crate) fn close_taps<R: Wait>(
    alloc: Global,
    taps: Vec<TapState>,
    opened: Taps<'_, R>,
) -> Result<Vec<TapState>, NoMemory>
    requires { All (AreReadsOf opened.feeders.items) (row_lists opened.rows.items) }
    ensures { IfOk result (λ all. HaveClosed taps.items opened.entry.feeders.items (row_lists opened.entry.rows.items) all.items) }
{
    let mut left = opened;
    let mut all = Vec::with_capacity(alloc, taps.len())?;
    'taps: for tap in taps {
        let (later, rest) = close_next(alloc, tap, left)?;
        left = rest;
        all.push(later)?;
    }
    Ok(all)
}
