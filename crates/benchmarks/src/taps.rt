// Readers of one counter at a centre, each in a thread of its own. `shown READERS LOOKS` has each of 1 to 16 look so
// often through a tap, which is fed all the while, and `asked READERS LOOKS` has each fetch as often through the
// centre's lock; the number is that of all looks.
ghost use Rattle.std.specs.Prelude.{◌≡◌, ◌≤◌, ◌<◌, length, All, IfOk};
ghost use Rattle.dc_talk.specs.Doors.{IsBehind};
ghost use Rattle.host_lock.specs.Hosts.{IsOf};
ghost use Rattle.read_tap.specs.declared.limits.TheConstants.{MOST_READERS};
ghost use Rattle.read_tap.specs.Shows.{width};

use crate::counter::counter;
use crate::fault::Fault;
use dc_centre::Centre;
use dc_door::{KeptDoor, centres_of};
use dc_talk::{Ask, Door, Log, Say};
use host_lock::{Host, Pass};
use ids_core::ObjectId;
use machine_trail::Kept;
use read_tap::{MOST_READERS, Tap, TapFeeder, TapReader};
use std::alloc::Global;
use std::sync::Wait;
use std::sync::atomic::{AtomicU64, Ordering};
use std::thread;
use std::thread::{Threads, join};
use vv_core::Vector;

// The most transactions that the centre stamps.
const LIMIT: u64 = 1;

/// How many looks were answered, for the form and the counts; nothing where they are of no form.
pub fn worked<R: Threads + Wait + Sync>(
    rt: &R,
    alloc: Global,
    form: &str,
    readers: &str,
    looks: &str,
) -> Option<Result<i128, Fault>> {
    let (Ok(readers), Ok(looks)) = (readers.parse::<u32>(), looks.parse::<u32>()) else {
        return None;
    };
    if readers < 1 || readers > MOST_READERS {
        return None;
    }
    match form {
        "shown" => Some(through_a_tap(rt, alloc, readers, looks)),
        "asked" => Some(through_the_lock(rt, alloc, readers, looks)),
        _ => None,
    }
}

// The sum of the looks of all readers; a fault where their threads could not be started.
fn sum_of(made: Option<Vec<u32>>) -> Result<i128, Fault> {
    let Some(made) = made else {
        return Err(Fault::NoMemory);
    };
    let mut all: i128 = 0;
    'made: for one in made {
        all = all.wrapping_add(i128::from(one));
    }
    Ok(all)
}

// The counter alone.
fn objects(alloc: Global) -> Result<Vec<ObjectId>, Fault>
    ensures { IfOk result (λ objects. length objects.items ≡ 1) }
{
    let object = counter(b"total")?;
    let mut objects = Vec::new(alloc);
    match objects.push(object) {
        Ok(()) => Ok(objects),
        Err(_) => Err(Fault::NoMemory),
    }
}

// Each of so many readers looks so often through a tap, which is fed until all have.
fn through_a_tap<R: Threads + Wait + Sync>(
    rt: &R,
    alloc: Global,
    readers: u32,
    looks: u32,
) -> Result<i128, Fault>
    requires { (1 ≤ readers) × (readers ≤ MOST_READERS) }
{
    let (feeder, all) = Tap::new(alloc, rt, 1, objects(alloc)?, readers)?;
    let door = KeptDoor::new(centres_of(alloc, 1, 1, LIMIT)?, 1);
    let left = AtomicU64::new(1);
    let flag = &left;
    let (_feeds, made) = join(
        rt,
        move || feeds(alloc, feeder, door, flag),
        move || -> Option<Vec<u32>>
            requires { All (λ reader. 0 < width reader.table) all.items }
        { looks_of_all(rt, alloc, all, looks, flag) },
    );
    sum_of(made)
}

// Feeds a tap as long as readers are left and there is memory. How many shows there are then.
fn feeds<D: Door + Drop, R: Wait>(
    alloc: Global,
    mut feeder: TapFeeder<'_, R>,
    mut door: D,
    left: &AtomicU64,
) -> usize
    requires { IsBehind (D.shown door) 1 }
{
    let mut log = Log::new(alloc, 1);
    'feeds: for _feed in 0..u64::MAX {
        if left.load(Ordering::SeqCst) == 0 || !is_fed(alloc, &mut feeder, &mut door, &mut log) {
            break;
        }
    }
    feeder.as_shows().len()
}

// Whether there was memory for a feed.
fn is_fed<D: Door, R: Wait>(
    alloc: Global,
    feeder: &mut TapFeeder<'_, R>,
    door: &mut D,
    log: &mut Log,
) -> bool
    requires { IsBehind (D.shown door.old) 1 }
    ensures { IsBehind (D.shown door.new) 1 }
{
    match feeder.feed(alloc, door, 1, log) {
        Ok(_fed) => true,
        Err(_) => false,
    }
}

// How many looks of each reader were answered, each in a thread of its own; none where no thread could be started.
// No reader is left then.
fn looks_of_all<R: Threads + Wait + Sync>(
    rt: &R,
    alloc: Global,
    readers: Vec<TapReader>,
    looks: u32,
    left: &AtomicU64,
) -> Option<Vec<u32>>
    requires { All (λ reader. 0 < width reader.table) readers.items }
{
    let each = |reader: TapReader| -> u32
        requires { 0 < width reader.table }
    { looks_of(alloc, reader, looks) };
    let made = thread::map_vec(rt, readers, &each).ok();
    left.store(0, Ordering::SeqCst);
    made
}

// How many of so many looks of a reader were answered.
fn looks_of(alloc: Global, mut reader: TapReader, looks: u32) -> u32
    requires { 0 < width reader.table }
{
    let mut made: u32 = 0;
    'looks: for _look in 0..looks {
        if reader.look(alloc, 0).is_ok() {
            made = made.wrapping_add(1);
        }
    }
    made
}

// Each of so many readers fetches the counter so often through the lock of its centre.
fn through_the_lock<R: Threads + Wait + Sync>(
    rt: &R,
    alloc: Global,
    readers: u32,
    looks: u32,
) -> Result<i128, Fault>
    requires { (1 ≤ readers) × (readers ≤ MOST_READERS) }
{
    let object = counter(b"total")?;
    let centre = Centre::new(alloc, 1, 1, 1, LIMIT)?;
    let (host, passes) = Host::new(alloc, Kept::new(alloc, centre), readers)?;
    sum_of(fetches_of_all(rt, alloc, &host, passes, &object, looks))
}

// How many fetches with each pass were answered, each in a thread of its own; none where no thread could be started.
fn fetches_of_all<R: Threads + Wait + Sync>(
    rt: &R,
    alloc: Global,
    host: &Host<Centre>,
    passes: Vec<Pass<Centre>>,
    object: &ObjectId,
    looks: u32,
) -> Option<Vec<u32>>
    requires { All (IsOf host.now) passes.items }
{
    let each = |pass: Pass<Centre>| -> u32
        requires { IsOf host.now pass }
    { fetches_of(rt, alloc, host, pass, object, looks) };
    thread::map_vec(rt, passes, &each).ok()
}

// How many of so many fetches with a pass were answered.
fn fetches_of<R: Wait>(
    rt: &R,
    alloc: Global,
    host: &Host<Centre>,
    mut pass: Pass<Centre>,
    object: &ObjectId,
    looks: u32,
) -> u32
    requires { IsOf host.now pass }
{
    let ask = Ask::Fetch {
        object: *object,
        at: Vector::zero(1),
    };
    let mut made: u32 = 0;
    'looks: for _look in 0..looks {
        if is_fetched(rt, alloc, host, &mut pass, &ask) {
            made = made.wrapping_add(1);
        }
    }
    made
}

// Whether a fetch gave a value.
fn is_fetched<R: Wait>(
    rt: &R,
    alloc: Global,
    host: &Host<Centre>,
    pass: &mut Pass<Centre>,
    ask: &Ask,
) -> bool
    requires { IsOf host.now pass.old }
    ensures { IsOf host.now pass.new }
{
    match host.call(rt, pass, ask) {
        Ok(Say::Object { state }) => state.as_state().value(alloc).is_ok(),
        _ => false,
    }
}
