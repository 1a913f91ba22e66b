// What an operator is told by answers that no centre of a run gives it, which no script can show; and what a relay hands
// on.
ghost use Rattle.std.specs.Prelude.{◌≡◌, IfOk};
ghost use Rattle.ids_core.specs.declared.limits.TheConstants.{MOST_CENTRES};
ghost use Rattle.script_core.specs.Steps.{IsOperatorStep};

use crate::printed::tells;
use crate::records::sent;
use client_stub::operate;
use dc_talk::{Ask, ListDoor, Log, Say};
use ids_core::{MOST_CENTRES, NoMemory};
use samples::pair;
use script_core::OperatorStep;
use std::alloc::Global;
use std::test::Fail;

// What an ask of the operator is answered by a centre.
#[derive(Clone, Copy)]
enum Answer {
    // It has so many records of centre 1 and none of centre 2.
    Has(u32),
    // The record of centre 1 with this number, alone, with three hops.
    Sent(u32),
    Orphan,
    Applied,
    Misfit,
}

// The answer, as a centre gives it.
fn said(alloc: Global, answer: Answer) -> Result<Say, Fail> {
    match answer {
        Answer::Has(count) => Ok(Say::Vector {
            vector: pair(count, 0),
        }),
        Answer::Sent(seq) => sent(alloc, seq, seq, 3),
        Answer::Orphan => Ok(Say::Orphan { number: 5, have: 2 }),
        Answer::Applied => Ok(Say::Applied { fresh: true }),
        Answer::Misfit => Ok(Say::Misfit),
    }
}

// A door that gives these answers, and behind them those of stopped centres.
fn door(alloc: Global, answers: &[Answer; 3]) -> Result<ListDoor, Fail> {
    let mut says = Vec::new(alloc);
    for answer in answers {
        says.push(said(alloc, *answer)?)?;
    }
    Ok(ListDoor::new(alloc, says))
}

// Whether a step through a door tells this line, where the log is empty.
fn tells_line(
    alloc: Global,
    door: &mut ListDoor,
    step: &OperatorStep,
    log: &mut Log,
    want: &str,
) -> Result<bool, Fail>
    requires { IsOperatorStep MOST_CENTRES step.now }
{
    operate(door, MOST_CENTRES, step, log)?;
    Ok(tells(alloc, log, 0, want)?)
}

// Whether a step tells this line, where its asks are answered so.
fn told(alloc: Global, step: &OperatorStep, answers: &[Answer; 3], want: &str) -> Result<bool, Fail>
    requires { IsOperatorStep MOST_CENTRES step.now }
{
    let mut door = door(alloc, answers)?;
    let mut log = Log::new(alloc, 1);
    tells_line(alloc, &mut door, step, &mut log, want)
}

#[test]
fn a_relay_by_answers_that_no_run_has(rt: HostRuntime) -> Result<(), Fail> {
    let alloc = rt.alloc();
    let (from, origin, to) = (3, 1, 2);
    let step = OperatorStep::Relay { from, origin, to };
    let (has, sent, misfit) = (Answer::Has(0), Answer::Sent(1), Answer::Misfit);
    let none = "2 from 3 of 1 misfit\n";
    assert!(rt; told(alloc, &step, &[misfit, has, has], none)?);
    assert!(rt; told(alloc, &step, &[has, misfit, has], none)?);
    assert!(rt; told(alloc, &step, &[has, sent, misfit], none)?);
    let orphan = "2 from 3 of 1 orphan 5 has 2\n";
    assert!(rt; told(alloc, &step, &[has, sent, Answer::Orphan], orphan)?);
    Ok(())
}

// A number for an ask at a centre: the centre, behind it what is asked for of the records of centre 1, or what is
// delivered of it with three hops.
fn number_of(centre: u8, ask: &Ask) -> (u8, u64, u64) {
    match ask {
        Ask::Report => (centre, 0, 0),
        Ask::Relay {
            origin: 1,
            after,
            most,
        } => (centre, *after, u64::from(*most)),
        Ask::Deliver { item, hops: 3 } => (centre, u64::from(item.as_record().stamp.seq), 3),
        _ => (0, 0, 0),
    }
}

// The numbers for the asks that went through a door, in order.
fn asks(alloc: Global, door: &ListDoor) -> Result<Vec<(u8, u64, u64)>, NoMemory> {
    let mut asks = Vec::new(alloc);
    for (centre, entry) in door.entries() {
        asks.push(number_of(*centre, &entry.ask))?;
    }
    Ok(asks)
}

// The numbers for the asks of a step through a door.
fn asked(
    alloc: Global,
    door: &mut ListDoor,
    step: &OperatorStep,
    log: &mut Log,
) -> Result<Vec<(u8, u64, u64)>, NoMemory>
    requires { IsOperatorStep MOST_CENTRES step.now }
{
    operate(door, MOST_CENTRES, step, log)?;
    asks(alloc, door)
}

// The numbers for the asks of a step, where they are answered so.
fn asked_for(
    alloc: Global,
    step: &OperatorStep,
    answers: &[Answer; 3],
) -> Result<Vec<(u8, u64, u64)>, Fail>
    requires { IsOperatorStep MOST_CENTRES step.now }
{
    let mut door = door(alloc, answers)?;
    let mut log = Log::new(alloc, 1);
    Ok(asked(alloc, &mut door, step, &mut log)?)
}

#[test]
fn a_relay_asks_the_one_between_and_keeps_the_hops(rt: HostRuntime) -> Result<(), Fail> {
    let (from, origin, to) = (3, 1, 2);
    let step = OperatorStep::Relay { from, origin, to };
    let answers = [Answer::Has(6), Answer::Sent(7), Answer::Applied];
    let asks = asked_for(rt.alloc(), &step, &answers)?;
    assert!(rt; asks.as_slice() == [(2, 0, 0), (3, 6, 1_024), (2, 7, 3)].as_slice());
    Ok(())
}
