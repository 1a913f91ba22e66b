// Taps over a door that answers from a list: on one thread, and with a feeder and a reader at once.
ghost use Rattle.std.specs.Prelude.{◌≡◌, ◌<◌};
ghost use Rattle.read_tap.specs.Shows.{width};

use dc_talk::{Fed, ListDoor, Log, Say, SharedState};
use ids_core::{NoMemory, Sort};
use read_tap::{Tap, TapFeeder, TapReader};
use samples::{counter, id, mark, single};
use std::alloc::Global;
use std::sync::Wait;
use std::test::Fail;
use std::thread;
use std::thread::{Threads, join};
use tx_core::{Op, State, Value};
use vv_core::Vector;

// How many shows a feeder publishes while a reader looks.
const MANY: u32 = 200;

// The state of a counter to which so much was added.
fn counted(alloc: Global, number: u32) -> Result<SharedState, NoMemory> {
    let mut state = State::empty(alloc, Sort::Counter)?;
    let delta = i64::from(number);
    state.fold(&mark(1, id(1, 1, 1)), &Op::Inc { delta })?;
    SharedState::new(alloc, state)
}

// A door at which a feed of one counter is answered with 1, then one with 2, and so on.
fn counting(alloc: Global) -> Result<ListDoor, NoMemory> {
    let mut says = Vec::new(alloc);
    for before in 0..MANY {
        let number = before + 1;
        says.push(Say::Base {
            vector: single(number),
            folded: u64::from(number),
            trimmed: 0,
        })?;
        says.push(Say::Object {
            state: counted(alloc, number)?,
        })?;
    }
    Ok(ListDoor::new(alloc, says))
}

// The entry of centre 1.
fn entry_of(vector: &Vector) -> u32 {
    vector.as_slice().first().copied().unwrap_or(0)
}

// Whether a value is this number.
fn is_number(value: &Value, number: u32) -> bool {
    match value {
        Value::Number(found) => *found == i128::from(number),
        _ => false,
    }
}

// The number that a look answers, where the vector and the value tell the same.
fn number(alloc: Global, reader: &mut TapReader) -> Option<u32>
    requires { 0 < width reader.old.table }
    ensures { reader.new.table ≡ reader.old.table }
{
    let (vector, value) = reader.look(alloc, 0).ok()?;
    let entry = entry_of(&vector);
    if is_number(&value, entry) {
        Some(entry)
    } else {
        None
    }
}

// One feed. Whether a show was published.
fn feed<R: Wait>(
    alloc: Global,
    feeder: &mut TapFeeder<'_, R>,
    door: &mut ListDoor,
    log: &mut Log,
) -> bool
    ensures { feeder.new.table ≡ feeder.old.table }
{
    match feeder.feed(alloc, door, 1, log) {
        Ok(Fed::Shown { .. }) => true,
        _ => false,
    }
}

// Feeds until all answers are used. How many shows were published, and the feeder again.
fn feeds<'a, R: Wait>(
    alloc: Global,
    mut feeder: TapFeeder<'a, R>,
    mut door: ListDoor,
) -> (u32, TapFeeder<'a, R>)
    ensures { result.1.table ≡ feeder.entry.table }
{
    let mut log = Log::new(alloc, 1);
    let mut shown: u32 = 0;
    for _feed in 0..MANY {
        if feed(alloc, &mut feeder, &mut door, &mut log) {
            shown = shown.wrapping_add(1);
        }
    }
    (shown, feeder)
}

// Looks until the last number is seen. Whether no number was less than the one before, and the reader again.
fn looks(alloc: Global, mut reader: TapReader) -> (bool, TapReader)
    requires { 0 < width reader.table }
    ensures { result.1.table ≡ reader.table }
{
    let mut last = 0;
    for _turn in 0..u64::MAX {
        if last == MANY {
            break;
        }
        match number(alloc, &mut reader) {
            Some(next) if next >= last => last = next,
            _ => return (false, reader),
        }
        thread::yield_now();
    }
    (true, reader)
}

// How many shows a tap with one reader had.
fn closed<R: Wait>(alloc: Global, feeder: TapFeeder<'_, R>, reader: TapReader) -> Option<usize>
    requires { reader.table ≡ feeder.table }
{
    let mut all = Vec::new(alloc);
    match all.push(reader) {
        Ok(()) => Some(Tap::close(feeder, all).ok()?.len()),
        Err(_) => None,
    }
}

// Whether a reader never went back while a feeder published, how many shows were published, and how many there were
// at the close.
fn at_once<R: Threads + Wait + Sync>(rt: &R, alloc: Global) -> Option<(bool, u32, usize)> {
    let mut objects = Vec::new(alloc);
    objects.push(counter("n").ok()?).ok()?;
    let (feeder, mut readers) = Tap::new(alloc, rt, 1, objects, 1).ok()?;
    let reader = readers.pop()?;
    let door = counting(alloc).ok()?;
    let ((shown, feeder), (rises, reader)) = join(
        rt,
        move || -> (u32, TapFeeder<'_, R>)
            ensures { result.1.table ≡ feeder.entry.table }
        { feeds(alloc, feeder, door) },
        move || -> (bool, TapReader)
            requires { 0 < width reader.table }
            ensures { result.1.table ≡ reader.table }
        { looks(alloc, reader) },
    );
    Some((rises, shown, closed(alloc, feeder, reader)?))
}

#[test]
fn a_reader_looks_while_a_feeder_publishes(rt: HostRuntime) -> Result<(), Fail> {
    let (rises, shown, shows) = at_once(&rt, rt.alloc()).ok_or("memory")?;
    assert!(rt; rises);
    assert_eq!(rt; (shown, shows), (MANY, 201));
    Ok(())
}

#[test]
fn a_look_finds_a_show_of_which_nobody_told(rt: HostRuntime) -> Result<(), Fail> {
    let alloc = rt.alloc();
    let mut objects = Vec::new(alloc);
    objects.push(counter("n")?)?;
    let (mut feeder, mut readers) = Tap::new(alloc, &rt, 1, objects, 1)?;
    let mut reader = readers.pop().ok_or("a reader")?;
    let mut door = counting(alloc)?;
    let mut log = Log::new(alloc, 1);
    assert_eq!(rt; number(alloc, &mut reader), Some(0));
    assert!(rt; feed(alloc, &mut feeder, &mut door, &mut log));
    assert_eq!(rt; number(alloc, &mut reader), Some(1));
    assert!(rt; feed(alloc, &mut feeder, &mut door, &mut log));
    reader.learn(feeder.as_shows())?;
    assert_eq!(rt; number(alloc, &mut reader), Some(2));
    Ok(())
}
