// The end of a tap that shows.
ghost use Rattle.std.specs.Prelude.{◌≡◌, ◌+◌, [], ◌∷◌, ◌++◌, length, IfOk, OnOk, OnErr};
ghost use Rattle.left_right.specs.Handles.{published};
ghost use Rattle.dc_talk.specs.declared.seen.Fed.TheVariants.{Shown};
ghost use Rattle.dc_talk.specs.Acting.{acting, IsCutShort};
ghost use Rattle.dc_talk.specs.Doors.{IsBehind};
ghost use Rattle.dc_worker.specs.Work.{AddsSuch};
ghost use Rattle.read_tap.specs.Shows.{width, shows_in};
ghost use Rattle.read_tap.specs.Feeds.{Feeds};

use crate::count::LastPlace;
use crate::shows::Shows;
use dc_talk::{Door, Fed, Log};
use dc_worker::find_show;
use ids_core::{NoMemory, ObjectId};
use left_right::WriteHandle;
use list_core::List;
use script_core::{Found, Show};
use std::alloc::Global;
use std::marker::Model;
use std::sync::Wait;

pub(crate) type Port<'a, R> = WriteHandle<LastPlace, usize, &'a R>;

/// The feeder of a tap. It keeps each show. All of them are published.
#[derive(Drop)]
pub struct TapFeeder<'a, R: Wait> {
    rt: &'a R,
    port: Port<'a, R>,
    objects: List<ObjectId>,
    shows: Shows,
}

impl<'a, R: Wait> Model for TapFeeder<'a, R> {
    ghost use Rattle.std.specs.Prelude.{◌≡◌, ◌+◌, length};
    ghost use Rattle.left_right.specs.Handles.{published};
    ghost use Rattle.read_tap.specs.Shows.{FeederView, width};
    ghost use Rattle.tx_core.specs.States.{state_codes};

    ghost Value = { FeederView };

    ghost coded = { Prim.hlevel state_codes };

    ghost view = { λ f. record { table = f.shows.table; shows = f.shows.shows; objects = f.objects } };

    ghost invariant = { λ f. (width f.shows.table ≡ length f.objects) × (length f.shows.shows ≡ (published f.port).0 + 1) };
}

// Puts a show behind the others, and has the port show its place. Nothing changes where memory is refused.
fn publish<'a, R: Wait>(
    rt: &R,
    port: &mut Port<'a, R>,
    shows: &mut Shows,
    show: Show,
) -> Result<(), NoMemory>
    requires { length show.states ≡ width shows.old.table }
    ensures table { shows.new.table ≡ shows.old.table }
    ensures ok { OnOk result ((shows.new.shows ≡ shows.old.shows ++ show ∷ []) × ((published port.new).0 ≡ length shows.old.shows)) }
    ensures err { OnErr result ((shows.new.shows ≡ shows.old.shows) × ((published port.new).0 ≡ (published port.old).0)) }
{
    if port.append(shows.len()).is_err() {
        return Err(NoMemory);
    }
    shows.put(rt, show)?;
    match port.publish() {
        Ok(()) => Ok(()),
        Err(_) => unreachable!(),
    }
}

impl<'a, R: Wait> TapFeeder<'a, R> {
    // A feeder with the one show that its port shows.
    pub(crate) fn new(
        rt: &'a R,
        port: Port<'a, R>,
        objects: List<ObjectId>,
        shows: Shows,
    ) -> TapFeeder<'a, R>
        requires width { width shows.table ≡ length objects }
        requires shown { length shows.shows ≡ (published port).0 + 1 }
        ensures { result ≡ record { table = shows.table; shows = shows.shows; objects = objects } }
    {
        TapFeeder {
            rt,
            port,
            objects,
            shows,
        }
    }

    /// The shows so far, the opening one first.
    pub fn as_shows(&self) -> &Shows
        ensures { result.now ≡ shows_in self.now.table self.now.shows }
    {
        &self.shows
    }

    /// The objects that the tap shows, in order.
    pub fn objects(&self) -> &[ObjectId]
        ensures { result.now ≡ self.now.objects }
    {
        self.objects.as_slice()
    }

    // The shows. It waits for the readers that look just then.
    pub(crate) fn into_shows(self) -> Shows
        ensures { result ≡ shows_in self.entry.table self.entry.shows }
    {
        let TapFeeder {
            rt: _,
            port,
            objects: _,
            shows,
        } = self;
        drop(port);
        shows
    }

    // Publishes a show. Nothing changes where memory is refused.
    fn publish(&mut self, show: Show) -> Result<Fed, NoMemory>
        requires { length show.states ≡ length self.old.objects }
        ensures table { self.new.table ≡ self.old.table }
        ensures objects { self.new.objects ≡ self.old.objects }
        ensures ok { IfOk result (λ fed. (fed ≡ Shown show.vector) × (self.new.shows ≡ self.old.shows ++ show ∷ [])) }
        ensures err { OnErr result (self.new.shows ≡ self.old.shows) }
    {
        let vector = show.vector;
        publish(self.rt, &mut self.port, &mut self.shows, show)?;
        Ok(Fed::Shown { vector })
    }

    /// Has a centre behind the door prune, and fetch each object at its base, and publishes what it answers. An answer
    /// that gives no base or no state ends the feed: nothing more is asked, and nothing is published. It waits for
    /// readers that still look at what was published before the last show. An `Err` is want of memory: the centre may
    /// have been asked, and the shows are as before.
    pub fn feed<D: Door>(
        &mut self,
        alloc: Global,
        door: &mut D,
        centre: u8,
        log: &mut Log,
    ) -> Result<Fed, NoMemory>
        requires { IsBehind (D.shown door.old) centre }
        ensures place { D.place door.new ≡ D.place door.old }
        ensures table { self.new.table ≡ self.old.table }
        ensures objects { self.new.objects ≡ self.old.objects }
        ensures feeds { IfOk result (λ fed. AddsSuch (Feeds centre self.old.objects self.old.shows self.new.shows fed) (acting (D.shown door.old) log.old) (acting (D.shown door.new) log.new)) }
        ensures same { OnErr result (self.new.shows ≡ self.old.shows) }
        ensures short { OnErr result (IsCutShort (acting (D.shown door.old) log.old) (acting (D.shown door.new) log.new)) }
    {
        match find_show(alloc, door, centre, self.objects.as_slice(), log)? {
            Found::Whole(show) => self.publish(show),
            Found::Ended(fed) => Ok(fed),
        }
    }
}
