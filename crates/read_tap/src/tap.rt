// Taps, from their making to their close.
ghost use Rattle.std.specs.Prelude.{◌≡◌, ◌≤◌, [], ◌∷◌, length, take, replicate, All, IsTrue, IfOk, IfErr, OnErr};
ghost use Rattle.std.specs.Bool.{OnFalse};
ghost use Rattle.ids_core.specs.declared.limits.TheConstants.{MOST_CENTRES};
ghost use Rattle.read_tap.specs.declared.limits.TheConstants.{MOST_SHOWN, MOST_READERS};
ghost use Rattle.script_core.specs.Taps.{opening};
ghost use Rattle.read_tap.specs.Shows.{IsFront, SeesMore, shows_in, width};

use crate::count::LastPlace;
use crate::feeder::{Port, TapFeeder};
use crate::reader::TapReader;
use crate::show::tag_of;
use crate::shows::Shows;
use ids_core::{NoMemory, ObjectId};
use left_right::WriteHandle;
use list_core::List;
use script_core::Show;
use std::alloc::Global;
use std::sync::Wait;

/// What shows chosen objects at a centre's base to readers that take no lock.
pub struct Tap;

/// A tap that could not be closed.
#[derive(Drop)]
pub struct UnclosedTap<'a, R: Wait> {
    pub feeder: TapFeeder<'a, R>,
    pub readers: Vec<TapReader>,
}

// So many readers of a port, each of which has seen the first show.
fn deal<'a, R: Wait>(
    alloc: Global,
    port: &Port<'a, R>,
    shows: &Shows,
    readers: u32,
) -> Result<Vec<TapReader>, NoMemory>
    ensures { IfOk result (λ all. all.items ≡ replicate readers (shows_in shows.now.table (take 1 shows.now.shows))) }
{
    let mut all = Vec::new(alloc);
    'readers: for _reader in 0..readers {
        all.push(TapReader::new(port.handle()?, shows.start(alloc)?))?;
    }
    Ok(all)
}

// Whether each of the readers of a tap has seen a front of these shows.
fn are_fronts(readers: &[TapReader], shows: &Shows) -> bool
    requires { All (λ reader. reader.table ≡ shows.now.table) readers.now }
    ensures fronts { IsTrue result → All (λ reader. IsFront reader.shows shows.now.shows) readers.now }
    ensures more { OnFalse result (SeesMore shows.now.shows readers.now) }
{
    'readers: for reader in readers {
        if !reader.is_front_of(shows) {
            return false;
        }
    }
    true
}

impl Tap {
    /// A tap of these objects that opens with a show of them: its feeder, and so many readers, which have all seen that
    /// show alone. `NoMemory` is want of memory, or that the port gave no place for a reader. It may wait.
    pub fn open<'a, R: Wait>(
        alloc: Global,
        rt: &'a R,
        objects: List<ObjectId>,
        show: Show,
        readers: u32,
    ) -> Result<(TapFeeder<'a, R>, Vec<TapReader>), NoMemory>
        requires show { length show.states ≡ length objects }
        requires readers { (1 ≤ readers) × (readers ≤ MOST_READERS) }
        ensures objects { IfOk result (λ tap. tap.0.objects ≡ objects) }
        ensures width { IfOk result (λ tap. width tap.0.table ≡ length objects) }
        ensures shows { IfOk result (λ tap. tap.0.shows ≡ show ∷ []) }
        ensures readers { IfOk result (λ tap. tap.1.items ≡ replicate readers (shows_in tap.0.table tap.0.shows)) }
    {
        let shows = Shows::open(alloc, rt, tag_of(&objects), show)?;
        let port = WriteHandle::new(alloc, rt, LastPlace(0), LastPlace(0), readers as usize)?;
        let all = deal(alloc, &port, &shows, readers)?;
        Ok((TapFeeder::new(rt, port, objects, shows), all))
    }

    /// A tap of these objects of a system of `n` centres: its feeder, and so many readers, which have all seen the
    /// opening show alone. `NoMemory` is want of memory, or that the port gave no place for a reader. It may wait.
    pub fn new<'a, R: Wait>(
        alloc: Global,
        rt: &'a R,
        n: u8,
        objects: Vec<ObjectId>,
        readers: u32,
    ) -> Result<(TapFeeder<'a, R>, Vec<TapReader>), NoMemory>
        requires n { (1 ≤ n) × (n ≤ MOST_CENTRES) }
        requires objects { (1 ≤ length objects.items) × (length objects.items ≤ MOST_SHOWN) }
        requires readers { (1 ≤ readers) × (readers ≤ MOST_READERS) }
        ensures objects { IfOk result (λ tap. tap.0.objects ≡ objects.items) }
        ensures width { IfOk result (λ tap. width tap.0.table ≡ length objects.items) }
        ensures shows { IfOk result (λ tap. tap.0.shows ≡ opening n objects.items ∷ []) }
        ensures readers { IfOk result (λ tap. tap.1.items ≡ replicate readers (shows_in tap.0.table tap.0.shows)) }
    {
        let objects = List::from_vec(objects);
        let opening = Show::opening(alloc, n, objects.as_slice())?;
        Tap::open(alloc, rt, objects, opening, readers)
    }

    /// Closes a tap: all its shows, of which each reader has seen a front. An `Err` hands all back: a reader has seen
    /// more than the feeder keeps. That never comes, but no clause of the port says so. It may wait.
    pub fn close<'a, R: Wait>(
        feeder: TapFeeder<'a, R>,
        readers: Vec<TapReader>,
    ) -> Result<Shows, UnclosedTap<'a, R>>
        requires { All (λ reader. reader.table ≡ feeder.table) readers.items }
        ensures shows { IfOk result (λ shows. shows ≡ shows_in feeder.entry.table feeder.entry.shows) }
        ensures fronts { IfOk result (λ shows. All (λ reader. IsFront reader.shows shows.shows) readers.items) }
        ensures back { IfErr result (λ tap. (tap.feeder ≡ feeder.entry) × (tap.readers.items ≡ readers.items)) }
        ensures more { OnErr result (SeesMore feeder.entry.shows readers.items) }
    {
        if are_fronts(readers.as_slice(), feeder.as_shows()) {
            Ok(feeder.into_shows())
        } else {
            Err(UnclosedTap { feeder, readers })
        }
    }
}
