// Lists of events in odd orders over seven scripts, each played in a world.
ghost use Rattle.script_core.specs.Scripts.{IsInRange};

use crate::dice::Dice;
use crate::scripts::SCRIPTS;
use ids_core::NoMemory;
use script_core::Script;
use script_reader::parse;
use std::alloc::Global;
use std::test::Fail;
use world_core::{Event, Played, World};

// How many events a list has.
const EVENTS: u32 = 400;

/// The section at which each actor is in a script, the operator first.
#[derive(Drop)]
struct Walk {
    at: [u32; 5],
}

impl Walk {
    // The next section for an actor, counted from 0, and behind the last one the first again.
    fn next(&mut self, actor: u32, count: u32) -> u32 {
        match self.at.get_mut(actor as usize) {
            Some(at) => {
                *at = *at % count.max(1) + 1;
                *at
            }
            None => 0,
        }
    }
}

// An actor takes a step of a section; the operator is the first actor.
fn taking(actor: u32, section: u32, step: u32) -> Event {
    match actor {
        0 => Event::Operator { section, step },
        client => Event::Client {
            client,
            section,
            step,
        },
    }
}

// Some actor takes a step of its next section, where it has one there.
fn ahead(dice: &mut Dice, walk: &mut Walk, script: &Script, count: u32) -> Event {
    let actor = dice.pick(script.clients.saturating_add(1));
    let section = walk.next(actor, count);
    match dice.roll(10) {
        0 => taking(actor, section, 2),
        _ => taking(actor, section, 1),
    }
}

// Some actor takes a step of any section.
fn anywhere(dice: &mut Dice, script: &Script, count: u32) -> Event {
    let actor = dice.pick(script.clients.saturating_add(2));
    let section = dice.pick(count.saturating_add(2));
    taking(actor, section, dice.pick(3))
}

// A commit of a client comes once more to a centre.
fn again(dice: &mut Dice, script: &Script) -> Event {
    Event::Again {
        client: dice.pick(script.clients.saturating_add(1)),
        note: dice.roll(30),
        centre: dice.near(script.n),
    }
}

// A record that a centre has handed out is carried to a centre.
fn carry(dice: &mut Dice, script: &Script) -> Event {
    Event::Carry {
        from: dice.near(script.n),
        entry: dice.roll(30),
        index: dice.pick(2),
        to: dice.near(script.n),
    }
}

// A worker of a centre makes a round of a section.
fn round(dice: &mut Dice, script: &Script, count: u32) -> Event {
    Event::Round {
        section: dice.pick(count.saturating_add(2)),
        round: dice.pick(script.rounds.saturating_add(2)),
        centre: dice.near(script.n),
        role: dice.near(5),
    }
}

// Any of these, the first one as often as the others together.
fn event_of(dice: &mut Dice, walk: &mut Walk, script: &Script, count: u32) -> Event {
    match dice.roll(8) {
        0 => anywhere(dice, script, count),
        1 => again(dice, script),
        2 => carry(dice, script),
        3 => round(dice, script, count),
        _ => ahead(dice, walk, script, count),
    }
}

// The place of the kind of an event: steps of clients, of the operator, late copies, carries, rounds.
fn kind_of(event: &Event) -> usize {
    match event {
        Event::Client { .. } => 0,
        Event::Operator { .. } => 1,
        Event::Again { .. } => 2,
        Event::Carry { .. } => 3,
        Event::Round { .. } => 4,
    }
}

// One more at a place.
fn add(counts: &mut [u32; 5], place: usize) {
    if let Some(count) = counts.get_mut(place) {
        *count = count.saturating_add(1);
    }
}

/// How many events of each kind were played, and how many named nothing.
#[derive(Drop)]
struct Tally {
    done: [u32; 5],
    missed: [u32; 5],
}

// Plays an event, and counts it.
fn play(
    alloc: Global,
    world: &mut World<'_>,
    event: &Event,
    tally: &mut Tally,
) -> Result<(), NoMemory> {
    match world.play(alloc, event)? {
        Played::Done => add(&mut tally.done, kind_of(event)),
        Played::NoSuch => add(&mut tally.missed, kind_of(event)),
    }
    Ok(())
}

// Plays the events of a seed in a world of a script: how many trails its book has.
fn play_all(alloc: Global, script: &Script, seed: u64, tally: &mut Tally) -> Result<usize, NoMemory>
    requires { IsInRange script.now }
{
    let mut world = World::new(alloc, script)?;
    let mut dice = Dice::new(seed);
    let mut walk = Walk { at: [0; 5] };
    let count = u32::try_from(script.sections.as_slice().len()).unwrap_or(0);
    for _event in 0..EVENTS {
        let event = event_of(&mut dice, &mut walk, script, count);
        play(alloc, &mut world, &event, tally)?;
    }
    Ok(world.finish(alloc)?.trails.as_slice().len())
}

// Plays the lists of 35 seeds over a script: whether each book has a trail of each centre.
fn play_script(alloc: Global, text: &[u8], tally: &mut Tally) -> Result<bool, Fail> {
    let script = parse(alloc, text)?;
    for seed in 1..36 {
        if play_all(alloc, &script, seed, tally)? != usize::from(script.n) {
            return Ok(false);
        }
    }
    Ok(true)
}

// Whether each count is at least as wanted.
fn are_many(counts: &[u32; 5], want: &[u32; 5]) -> bool {
    counts.iter().zip(want).all(|(count, want)| count >= want)
}

#[test]
fn events_in_odd_orders_are_played(rt: HostRuntime) -> Result<(), Fail> {
    let mut tally = Tally {
        done: [0; 5],
        missed: [0; 5],
    };
    for text in SCRIPTS {
        assert!(rt; play_script(rt.alloc(), text, &mut tally)?);
    }
    assert!(rt; are_many(&tally.done, &[6_000, 1_500, 60, 20, 150]));
    assert!(rt; are_many(&tally.missed, &[20_000, 5_000, 5_000, 5_000, 5_000]));
    Ok(())
}
