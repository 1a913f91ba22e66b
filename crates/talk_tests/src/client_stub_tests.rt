// What a client is told by answers that no centre of a run gives it, which no script can show.
ghost use Rattle.std.specs.Prelude.{◌≡◌, IfOk};
ghost use Rattle.ids_core.specs.declared.limits.TheConstants.{MOST_CENTRES};
ghost use Rattle.ids_core.specs.Name.{IsName};
ghost use Rattle.dc_talk.specs.ListDoors.{shown_of};
ghost use Rattle.script_core.specs.Steps.{IsStep};
ghost use Rattle.client_stub.specs.Playing.{IsLinkBehind};

use crate::printed::tells;
use crate::records::door_of;
use client_session::Session;
use client_stub::Stub;
use dc_talk::{Change, ListDoor, Log, Say, SharedState};
use ids_core::{Name, NoMemory, ObjectId, Sort};
use samples::{pair, single};
use script_core::ClientStep;
use std::alloc::Global;
use std::process::Abort;
use std::test::Fail;
use tx_core::State;
use vv_core::Vector;

// Client 1 among two centres, with its log, before a door.
#[derive(Drop)]
struct Play {
    door: ListDoor,
    stub: Stub,
    log: Log,
}

// The client before a door.
fn begin(alloc: Global, door: ListDoor) -> Result<Play, NoMemory>
    ensures { IfOk result (λ play. IsLinkBehind (shown_of play.door) play.stub.client) }
{
    let session = Session::new(alloc, 1, 2, 4)?;
    Ok(Play {
        door,
        stub: Stub::new(session),
        log: Log::new(alloc, 2),
    })
}

impl Play {
    // Takes a step.
    fn take(&mut self, alloc: Global, step: &ClientStep) -> Result<(), NoMemory>
        requires fits { IsStep MOST_CENTRES step.now }
        requires behind { IsLinkBehind (shown_of self.old.door) self.old.stub.client }
        ensures { IsLinkBehind (shown_of self.new.door) self.new.stub.client }
    {
        self.stub.step(alloc, &mut self.door, step, &mut self.log)
    }

    // Connects to centre 1.
    fn connect(&mut self, alloc: Global) -> Result<(), NoMemory>
        requires { IsLinkBehind (shown_of self.old.door) self.old.stub.client }
        ensures { IsLinkBehind (shown_of self.new.door) self.new.stub.client }
    {
        self.take(alloc, &ClientStep::Connect { centre: 1 })
    }

    // Connects to centre 1, and opens a transaction.
    fn open(&mut self, alloc: Global) -> Result<(), NoMemory>
        requires { IsLinkBehind (shown_of self.old.door) self.old.stub.client }
        ensures { IsLinkBehind (shown_of self.new.door) self.new.stub.client }
    {
        self.connect(alloc)?;
        self.take(alloc, &ClientStep::Begin)
    }

    // The same, and commits that it adds 5 to a counter.
    fn commit(&mut self, alloc: Global) -> Result<(), Fail>
        requires { IsLinkBehind (shown_of self.old.door) self.old.stub.client }
        ensures { IsLinkBehind (shown_of self.new.door) self.new.stub.client }
    {
        self.open(alloc)?;
        let change = Change::Inc { delta: 5 };
        let object = object(Sort::Counter, "a")?;
        self.take(alloc, &ClientStep::Change { object, change })?;
        self.take(alloc, &ClientStep::Commit)?;
        Ok(())
    }

    // Whether a step tells these lines, behind such a commit.
    fn tells(&mut self, alloc: Global, step: &ClientStep, want: &str) -> Result<bool, Fail>
        requires fits { IsStep MOST_CENTRES step.now }
        requires behind { IsLinkBehind (shown_of self.old.door) self.old.stub.client }
    {
        self.commit(alloc)?;
        let notes = self.log.as_slice().len();
        self.take(alloc, step)?;
        Ok(tells(alloc, &self.log, notes, want)?)
    }
}

// What an ask of a client is answered.
#[derive(Clone, Copy)]
enum Answer {
    // What the centre has, in a vector for both centres.
    Snap,
    // The same in a vector for one centre.
    NarrowSnap,
    // The state of an empty set.
    Empty,
    OutOfOrder,
    // What the centre lacks.
    Lacks,
    Misfit,
}

// The state of an empty set, as an answer.
fn empty(alloc: Global) -> Result<Say, NoMemory> {
    let state = SharedState::new(alloc, State::empty(alloc, Sort::Set)?)?;
    Ok(Say::Object { state })
}

// The snapshot of a centre at this vector, as an answer.
fn snap(vector: Vector) -> Say {
    let (mine, top) = (0, 1);
    Say::Snap { vector, mine, top }
}

// The answer, as a centre gives it.
fn said(alloc: Global, answer: Answer) -> Result<Say, NoMemory> {
    match answer {
        Answer::Snap => Ok(snap(pair(4, 0))),
        Answer::NarrowSnap => Ok(snap(single(4))),
        Answer::Empty => empty(alloc),
        Answer::OutOfOrder => Ok(Say::OutOfOrder { have: 0 }),
        Answer::Lacks => Ok(Say::Lacks {
            centre: 1,
            need: 3,
            have: 1,
        }),
        Answer::Misfit => Ok(Say::Misfit),
    }
}

// A door that welcomes a client first and then gives this answer.
fn door(alloc: Global, answer: Answer) -> Result<ListDoor, NoMemory> {
    let say = said(alloc, answer)?;
    door_of(alloc, Say::Welcome { through: 0 }, say)
}

// Whether a step of a client that is connected to centre 1, and has committed, tells these lines, where the first ask of it
// is answered so, and each other one by a stopped centre.
fn told(alloc: Global, step: &ClientStep, answer: Answer, want: &str) -> Result<bool, Fail>
    requires { IsStep MOST_CENTRES step.now }
{
    let mut play = begin(alloc, door(alloc, answer)?)?;
    play.tells(alloc, step, want)
}

// Has such a client take the step once for each answer, and tell these lines.
fn tell(
    rt: &impl Abort,
    alloc: Global,
    step: &ClientStep,
    table: &[(Answer, &str)],
) -> Result<(), Fail>
    requires { IsStep MOST_CENTRES step.now }
{
    for (answer, want) in table {
        assert!(rt; told(alloc, step, *answer, want)?, "{want}");
    }
    Ok(())
}

// An object of that kind and name.
fn object(sort: Sort, name: &str) -> Result<ObjectId, Fail>
    ensures named { IfOk result (λ object. (object.sort ≡ sort) × (object.name ≡ name.now)) }
    ensures name { IfOk result (λ object. IsName object.name) }
{
    let name = Name::read(name.as_bytes())?;
    let _bytes = name.as_slice();
    Ok(ObjectId { sort, name })
}

#[test]
fn a_refresh_by_its_answer(rt: HostRuntime) -> Result<(), Fail> {
    let table = [
        (Answer::Snap, "c1 sees 4,0 own 0\n"),
        (Answer::NarrowSnap, "c1 refresh ignored\n"),
        (Answer::Lacks, "c1 refresh lacks 1:3 has 1\n"),
        (Answer::Misfit, "c1 refresh misfit\n"),
    ];
    tell(&rt, rt.alloc(), &ClientStep::Refresh, &table)
}

#[test]
fn a_read_by_the_answer_to_its_fetch(rt: HostRuntime) -> Result<(), Fail> {
    let object = object(Sort::Counter, "b")?;
    let table = [
        (Answer::Empty, "c1 read c.b ignored\n"),
        (Answer::Lacks, "c1 read c.b lacks 1:3 has 1\n"),
        (Answer::Misfit, "c1 read c.b misfit\n"),
    ];
    tell(&rt, rt.alloc(), &ClientStep::Read { object }, &table)
}

#[test]
fn a_push_by_its_answer(rt: HostRuntime) -> Result<(), Fail> {
    let table = [
        (Answer::OutOfOrder, "c1 push 1 order 0\n"),
        (Answer::Lacks, "c1 push 1 lacks 1:3 has 1\n"),
        (Answer::Misfit, "c1 push 1 misfit\n"),
    ];
    tell(&rt, rt.alloc(), &ClientStep::Push, &table)
}
