// A centre that is asked very often. `commits COUNT` has it stamp so many transactions, `deliveries COUNT`
// has it apply as many records of another centre; the number is what one fetch then sees. `fetches COUNT`
// has it stamp so many of a hundred clients, and tell the state with each; the number is what the last of
// these fetches sees.
ghost use Rattle.std.specs.Prelude.{◌≡◌, IfOk, [], ◌∷◌, pos};
ghost use Rattle.vv_core.specs.Vectors.{zeros};
ghost use Rattle.tx_core.specs.declared.op.Op.TheVariants.{Inc};

use crate::counter::counter;
use crate::fault::Fault;
use dc_centre::Centre;
use dc_talk::{Ask, Say, SharedRecord, SharedTx};
use ids_core::{Dot, NoMemory, ObjectId};
use std::alloc::Global;
use tx_core::{Op, Record, State, Tx, Update, Updates, Value};
use vv_core::{Stamp, Vector};

// The most transactions that a centre stamps.
const LIMIT: u64 = 1_000_000;

// How many clients take turns.
const CLIENTS: u32 = 100;

/// What is fetched, for the form and the count; nothing where they are of no form.
pub fn worked(alloc: Global, form: &str, count: &str) -> Option<Result<i128, Fault>> {
    let Ok(count) = count.parse::<u32>() else {
        return None;
    };
    match form {
        "commits" => Some(after_commits(alloc, count)),
        "deliveries" => Some(after_deliveries(alloc, count)),
        "fetches" => Some(after_fetches(alloc, count)),
        _ => None,
    }
}

// The value of the counter at a centre that stamped so many transactions of one client, each of which
// added 1 to it.
fn after_commits(alloc: Global, count: u32) -> Result<i128, Fault> {
    let object = counter(b"total")?;
    let mut centre = Centre::new(alloc, 1, 2, 1, LIMIT)?;
    for number in 1..u64::from(count) + 1 {
        commit(alloc, &mut centre, add_one(alloc, number, &object)?)?;
    }
    Ok(fetched(alloc, &mut centre, &object, count)?)
}

// The same at a centre that applied so many records of another one.
fn after_deliveries(alloc: Global, count: u32) -> Result<i128, Fault> {
    let object = counter(b"total")?;
    let mut centre = Centre::new(alloc, 2, 2, 1, LIMIT)?;
    for seq in 1..=count {
        let tx = add_one(alloc, u64::from(seq), &object)?;
        deliver(alloc, &mut centre, seq, tx)?;
    }
    Ok(fetched(alloc, &mut centre, &object, count)?)
}

// The value of the counter that is fetched with each of so many transactions of a hundred clients, each of
// which adds 1 to it.
fn after_fetches(alloc: Global, count: u32) -> Result<i128, Fault> {
    let object = counter(b"total")?;
    let mut centre = Centre::new(alloc, 1, 2, 1, LIMIT)?;
    let mut value = 0;
    for turn in 0..count {
        let seq = turn + 1;
        let tx = add_one(alloc, u64::from(seq), &object)?;
        commit(alloc, &mut centre, in_turn(turn, tx))?;
        value = fetched(alloc, &mut centre, &object, seq)?;
    }
    Ok(value)
}

// The transaction as that of a client whose turn it is.
fn in_turn(turn: u32, tx: Tx) -> Tx {
    let dot = Dot {
        client: turn % CLIENTS + 1,
        number: u64::from(turn / CLIENTS) + 1,
    };
    Tx { dot, ..tx }
}

// Has a centre stamp a transaction.
fn commit(alloc: Global, centre: &mut Centre, tx: Tx) -> Result<(), NoMemory> {
    let tx = SharedTx::new(alloc, tx)?;
    centre.step(alloc, &Ask::Commit { tx })?;
    Ok(())
}

// Has a centre apply a transaction as the record of centre 1 with this number.
fn deliver(alloc: Global, centre: &mut Centre, seq: u32, tx: Tx) -> Result<(), NoMemory> {
    let stamp = Stamp { centre: 1, seq };
    let deps = Vector::zero(2);
    let item = SharedRecord::new(alloc, Record { stamp, deps, tx })?;
    centre.step(alloc, &Ask::Deliver { item, hops: 0 })?;
    Ok(())
}

/// The transaction of client 1, of this number and rank, that adds 1 to a counter.
pub fn add_one(alloc: Global, number: u64, object: &ObjectId) -> Result<Tx, NoMemory>
    ensures { IfOk result (λ tx. tx ≡ record { dot = record { client = 1; number = number }; rank = number; snap = zeros 2; updates = record { object = object.now; op = Inc (pos 1) } ∷ [] }) }
{
    let mut updates = Updates::new(alloc);
    updates.push(Update {
        object: *object,
        op: Op::Inc { delta: 1 },
    })?;
    Ok(Tx {
        dot: Dot { client: 1, number },
        rank: number,
        snap: Vector::zero(2),
        updates,
    })
}

// The value of a counter at the centre, with so many records of centre 1; -1 where it has fewer.
fn fetched(
    alloc: Global,
    centre: &mut Centre,
    object: &ObjectId,
    seq: u32,
) -> Result<i128, NoMemory> {
    let ask = Ask::Fetch {
        object: *object,
        at: Vector::zero(2).raise(&Stamp { centre: 1, seq }),
    };
    let (say, _copy) = centre.step(alloc, &ask)?;
    number_in(alloc, &say)
}

// The number of the state that an answer has; -1 where it has none.
fn number_in(alloc: Global, say: &Say) -> Result<i128, NoMemory> {
    match say {
        Say::Object { state } => number_of(alloc, state.as_state()),
        _ => Ok(-1),
    }
}

// The number that a state is read as; -1 where it is none.
fn number_of(alloc: Global, state: &State) -> Result<i128, NoMemory> {
    match state.value(alloc)? {
        Value::Number(value) => Ok(value),
        _ => Ok(-1),
    }
}
