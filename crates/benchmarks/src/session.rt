// Many calls of a session beside pending commits. `reads PENDING ROUNDS` makes so many commits that stay
// pending and then reads another object so many times, `updates PENDING ROUNDS` changes it so many times
// in transactions that are ended again; the number is what is read at last.
ghost use Rattle.std.specs.Prelude.{◌≡◌, IfOk, IfSome};
ghost use Rattle.dc_talk.specs.Calls.{Ends};

use crate::counter::counter;
use crate::fault::Fault;
use client_session::Session;
use dc_talk::{Ask, Call, Change, Outcome, Refusal, Say, SharedState};
use ids_core::{NoMemory, ObjectId};
use std::alloc::Global;
use tx_core::{State, Value};
use vv_core::Vector;

// The session of client 1, with the empty state of the object in its cache.
fn session_with(alloc: Global, object: &ObjectId) -> Result<Session, NoMemory> {
    let mut session = Session::new(alloc, 1, 1, 16)?;
    let ask = Ask::Fetch {
        object: *object,
        at: Vector::zero(1),
    };
    let state = SharedState::new(alloc, State::empty(alloc, object.sort)?)?;
    session.hear(1, &ask, &Say::Object { state })?;
    Ok(session)
}

// Commits a transaction that adds 1 to a counter: its number.
fn commit_inc(
    alloc: Global,
    session: &mut Session,
    object: &ObjectId,
) -> Result<Option<u64>, Refusal>
    ensures { IfOk result (λ number. IfSome number (λ n. n ≡ session.new.own)) }
{
    session.begin(alloc)?;
    session.update(alloc, object, &Change::Inc { delta: 1 })?;
    session.commit()
}

// Makes so many commits.
fn commit_all(
    alloc: Global,
    session: &mut Session,
    object: &ObjectId,
    count: u32,
) -> Result<(), Refusal> {
    for _ in 0..count {
        commit_inc(alloc, session, object)?;
    }
    Ok(())
}

// What is read of a counter.
fn sum_of(alloc: Global, session: &mut Session, object: &ObjectId) -> Result<i128, Fault>
    ensures { IfOk result (λ sum. Ends session.old session.new (Call.Read object.now) (Outcome.Got (Value.Number sum))) }
{
    match session.read(alloc, object)? {
        Value::Number(sum) => Ok(sum),
        _ => Err(Fault::NoSum),
    }
}

/// What is read at last, for the form, the pending commits and the rounds; nothing where they are of no
/// form.
pub fn worked(
    alloc: Global,
    form: &str,
    pending: &str,
    rounds: &str,
) -> Option<Result<i128, Fault>> {
    let Ok(pending) = pending.parse::<u32>() else {
        return None;
    };
    let Ok(rounds) = rounds.parse::<u32>() else {
        return None;
    };
    match form {
        "reads" => Some(reads(alloc, pending, rounds)),
        "updates" => Some(updates(alloc, pending, rounds)),
        _ => None,
    }
}

// Reads a counter so many times beside so many commits on another one: what is read at last.
fn reads(alloc: Global, pending: u32, rounds: u32) -> Result<i128, Fault> {
    let object = counter(b"read")?;
    let mut session = session_with(alloc, &object)?;
    commit_all(alloc, &mut session, &counter(b"pending")?, pending)?;
    for _ in 0..rounds {
        sum_of(alloc, &mut session, &object)?;
    }
    sum_of(alloc, &mut session, &object)
}

// Changes a counter so many times beside so many commits on another one, 200 times in each
// transaction: what is read at last.
fn updates(alloc: Global, pending: u32, rounds: u32) -> Result<i128, Fault> {
    let object = counter(b"changed")?;
    let mut session = session_with(alloc, &object)?;
    commit_all(alloc, &mut session, &counter(b"pending")?, pending)?;
    session.begin(alloc)?;
    for round in 0..rounds {
        if round % 200 == 199 {
            begin_again(alloc, &mut session)?;
        }
        change(alloc, &mut session, &object)?;
    }
    sum_of(alloc, &mut session, &object)
}

// Ends the open transaction, and begins another one.
fn begin_again(alloc: Global, session: &mut Session) -> Result<(), Refusal> {
    session.abort()?;
    session.begin(alloc)
}

// Adds 1 to a counter in the open transaction.
fn change(alloc: Global, session: &mut Session, object: &ObjectId) -> Result<(), Refusal> {
    session.update(alloc, object, &Change::Inc { delta: 1 })
}
