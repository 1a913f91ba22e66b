// Feeds of taps: what they ask of their centre, and their lines.
ghost use Rattle.std.specs.Prelude.{◌≡◌, [], ◌∷◌, IfOk, OnOk, OnErr};
ghost use Rattle.dc_talk.specs.declared.log.Deed.TheVariants.{Told};
ghost use Rattle.dc_talk.specs.declared.line.Line.TheVariants as line;
ghost use Rattle.dc_talk.specs.Acting.{acting, IsCutShort};
ghost use Rattle.dc_talk.specs.Doors.{IsBehind};
ghost use Rattle.dc_talk.specs.Logs.{noted};
ghost use Rattle.script_core.specs.Feeds.{end_by, fed_of, Fetches, Finds, FeedGives};
ghost use Rattle.dc_worker.specs.Feeds.{HasFetched, show_found};
ghost use Rattle.dc_worker.specs.Work.{AddsSuch};

use crate::asks::ask_unheard;
use dc_talk::{Ask, Deed, Door, Fed, Line, Log, Say, SharedState};
use ids_core::{NoMemory, ObjectId};
use list_core::List;
use script_core::{Found, Show};
use std::alloc::Global;
use vv_core::Vector;

// What one fetch came to.
#[derive(Drop)]
pub(crate) enum Fetched {
    // A state.
    Got(SharedState),
    // The feed ends so.
    Ended(Fed),
}

// How a feed ends by an answer; none where it goes on.
fn end_by(say: &Say) -> Option<Fed>
    ensures { result ≡ end_by say.now }
{
    match say {
        Say::Down => Some(Fed::Down),
        Say::Pruned { .. } => Some(Fed::Pruned),
        Say::Lacks { .. } => Some(Fed::Refused),
        Say::Misfit => Some(Fed::Refused),
        _ => None,
    }
}

// Has a centre behind the door fetch an object at a vector. An `Err` is want of memory: it may have been asked.
fn fetch<D: Door>(
    door: &mut D,
    centre: u8,
    object: ObjectId,
    at: Vector,
    log: &mut Log,
) -> Result<Fetched, NoMemory>
    requires { IsBehind (D.shown door.old) centre }
    ensures place { D.place door.new ≡ D.place door.old }
    ensures fetched { IfOk result (λ it. HasFetched centre at object it (acting (D.shown door.old) log.old) (acting (D.shown door.new) log.new)) }
    ensures short { OnErr result (IsCutShort (acting (D.shown door.old) log.old) (acting (D.shown door.new) log.new)) }
{
    match ask_unheard(door, centre, Ask::Fetch { object, at }, log)? {
        Say::Object { state } => Ok(Fetched::Got(state)),
        say => match end_by(&say) {
            Some(fed) => Ok(Fetched::Ended(fed)),
            None => unreachable!(),
        },
    }
}

// Has a centre behind the door fetch these objects at a vector, in order, until one ends the feed. An `Err` is want
// of memory: some may have been asked for.
fn fetch_all<D: Door>(
    alloc: Global,
    door: &mut D,
    centre: u8,
    objects: &[ObjectId],
    at: Vector,
    log: &mut Log,
) -> Result<Found, NoMemory>
    requires { IsBehind (D.shown door.old) centre }
    ensures place { D.place door.new ≡ D.place door.old }
    ensures fetches { IfOk result (λ found. AddsSuch (Fetches centre at objects.now found) (acting (D.shown door.old) log.old) (acting (D.shown door.new) log.new)) }
    ensures short { OnErr result (IsCutShort (acting (D.shown door.old) log.old) (acting (D.shown door.new) log.new)) }
{
    let mut states = List::new(alloc);
    'objects: for object in objects {
        match fetch(door, centre, *object, at, log)? {
            Fetched::Got(state) => states.push(state)?,
            Fetched::Ended(fed) => return Ok(Found::Ended(fed)),
        }
    }
    Ok(Found::Whole(Show { vector: at, states }))
}

/// Has a centre behind the door prune, and fetch these objects at its base, in order, until an answer ends the feed.
/// An `Err` is want of memory: the centre may have been asked.
pub fn find_show<D: Door>(
    alloc: Global,
    door: &mut D,
    centre: u8,
    objects: &[ObjectId],
    log: &mut Log,
) -> Result<Found, NoMemory>
    requires { IsBehind (D.shown door.old) centre }
    ensures place { D.place door.new ≡ D.place door.old }
    ensures finds { IfOk result (λ found. AddsSuch (Finds centre objects.now found) (acting (D.shown door.old) log.old) (acting (D.shown door.new) log.new)) }
    ensures short { OnErr result (IsCutShort (acting (D.shown door.old) log.old) (acting (D.shown door.new) log.new)) }
{
    match ask_unheard(door, centre, Ask::Prune, log)? {
        Say::Base { vector, .. } => fetch_all(alloc, door, centre, objects, vector, log),
        say => match end_by(&say) {
            Some(fed) => Ok(Found::Ended(fed)),
            None => unreachable!(),
        },
    }
}

// Tells how a feed ended. Nothing changes where memory is refused.
fn tell_fed(log: &mut Log, centre: u8, found: &Found) -> Result<(), NoMemory>
    ensures ok { OnOk result (log.new ≡ noted log.old (Told (line.Feed centre (fed_of found.now)))) }
    ensures err { OnErr result (log.new ≡ log.old) }
{
    let fed = match found {
        Found::Whole(show) => Fed::Shown {
            vector: show.vector,
        },
        Found::Ended(fed) => *fed,
    };
    log.push(Deed::Told(Line::Feed { centre, fed }))
}

// The show that was found, where one was.
fn shown_by(found: Found) -> Option<Show>
    ensures { result ≡ show_found found }
{
    match found {
        Found::Whole(show) => Some(show),
        Found::Ended(_) => None,
    }
}

/// Feeds the tap of a centre behind the door, which has these objects: has the centre prune, fetches the objects at its
/// base, and tells how that ended. Answers the show that was found, where one was. A tap with no object is not fed. An
/// `Err` is want of memory: the centre may have been asked.
pub fn feed<D: Door>(
    alloc: Global,
    door: &mut D,
    centre: u8,
    objects: &[ObjectId],
    log: &mut Log,
) -> Result<Option<Show>, NoMemory>
    requires { IsBehind (D.shown door.old) centre }
    ensures place { D.place door.new ≡ D.place door.old }
    ensures feeds { IfOk result (λ show. AddsSuch (FeedGives centre objects.now show) (acting (D.shown door.old) log.old) (acting (D.shown door.new) log.new)) }
    ensures short { OnErr result (IsCutShort (acting (D.shown door.old) log.old) (acting (D.shown door.new) log.new)) }
{
    if objects.is_empty() {
        return Ok(None);
    }
    let found = find_show(alloc, door, centre, objects, log)?;
    tell_fed(log, centre, &found)?;
    Ok(shown_by(found))
}
