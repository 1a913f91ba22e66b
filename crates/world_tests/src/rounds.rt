// Rounds of workers as events: those that are there, and those that are not.
ghost use Rattle.script_core.specs.Scripts.{IsInRange};

use ids_core::NoMemory;
use run_book::Book;
use script_core::Script;
use script_reader::parse;
use std::alloc::Global;
use std::test::Fail;
use world_core::{Event, Played, World};

// A commit that is pushed, and a phase as section 6.
const SCRIPT: &[u8] = b"\
centres 2 k 1
clients 1
rounds 8
c1 connect 1
c1 begin
c1 inc c.a 5
c1 commit
c1 push
phase
end
";

// A round of the phase.
fn round_of(round: u32, centre: u8, role: u8) -> Event {
    let section = 6;
    Event::Round {
        section,
        round,
        centre,
        role,
    }
}

// The steps of the client, in order.
fn steps(alloc: Global) -> Result<Vec<Event>, NoMemory> {
    let mut events = Vec::new(alloc);
    for section in 1..6_u32 {
        let (client, step) = (1, 1);
        events.push(Event::Client {
            client,
            section,
            step,
        })?;
    }
    Ok(events)
}

// The book of events in a new world, and how many of them were played.
fn run_of(alloc: Global, script: &Script, events: &[Event]) -> Result<(Book, u32), NoMemory>
    requires { IsInRange script.now }
{
    let mut world = World::new(alloc, script)?;
    let mut done: u32 = 0;
    for event in events {
        match world.play(alloc, event)? {
            Played::Done => done = done.saturating_add(1),
            Played::NoSuch => {}
        }
    }
    Ok((world.finish(alloc)?, done))
}

// How many notes each worker of centre 1 has, and then those of centre 2.
fn notes_of(book: &Book) -> [usize; 8] {
    let mut counts = [0; 8];
    // The operator's log comes first, and then that of the only client.
    for (count, log) in counts.iter_mut().zip(book.logs.as_slice().iter().skip(2)) {
        *count = log.as_slice().len();
    }
    counts
}

// The same behind the client's steps and rounds.
fn notes_after(alloc: Global, script: &Script, rounds: &[Event]) -> Result<[usize; 8], NoMemory>
    requires { IsInRange script.now }
{
    let mut events = steps(alloc)?;
    for round in rounds {
        events.push(*round)?;
    }
    let (book, _done) = run_of(alloc, script, events.as_slice())?;
    Ok(notes_of(&book))
}

// Whether the workers have so many notes behind two rounds.
fn leave(alloc: Global, rounds: &[Event; 2], want: [usize; 8]) -> Result<bool, Fail> {
    let script = parse(alloc, SCRIPT)?;
    Ok(notes_after(alloc, &script, rounds)? == want)
}

#[test]
fn each_worker_makes_its_round(rt: HostRuntime) -> Result<(), Fail> {
    let alloc = rt.alloc();
    let sends = round_of(1, 1, 1);
    let both = [sends, round_of(1, 2, 2)];
    assert!(rt; leave(alloc, &both, [2, 0, 0, 0, 0, 1, 0, 0])?);
    let late = [sends, round_of(9, 2, 2)];
    assert!(rt; leave(alloc, &late, [2, 0, 0, 0, 0, 1, 0, 0])?);
    let reports = [round_of(3, 2, 3), round_of(1, 2, 3)];
    assert!(rt; leave(alloc, &reports, [0, 0, 0, 0, 0, 0, 4, 0])?);
    let prunes = [round_of(7, 1, 4), round_of(8, 1, 4)];
    assert!(rt; leave(alloc, &prunes, [0, 0, 0, 1, 0, 0, 0, 0])?);
    Ok(())
}

// A round of the first worker of centre 1 in a section.
fn round_in(section: u32) -> Event {
    Event::Round {
        section,
        round: 1,
        centre: 1,
        role: 1,
    }
}

// How many of these events of a new world are played.
fn done_of(alloc: Global, events: &[Event]) -> Result<u32, Fail> {
    let script = parse(alloc, SCRIPT)?;
    let (_book, done) = run_of(alloc, &script, events)?;
    Ok(done)
}

#[test]
fn a_round_that_is_not_there_is_not_played(rt: HostRuntime) -> Result<(), Fail> {
    let rounds = [
        round_of(0, 1, 1),
        round_of(9, 1, 1),
        round_of(10, 2, 2),
        round_of(1, 0, 1),
        round_of(1, 3, 1),
        round_of(1, 1, 0),
        round_of(1, 1, 5),
        round_in(0),
        round_in(5),
        round_in(7),
    ];
    assert!(rt; done_of(rt.alloc(), &rounds)? == 0);
    Ok(())
}
