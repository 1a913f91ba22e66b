// Frames. `encode UPDATES ROUNDS` writes a record of so many updates so many times, `decode` reads it as often; the
// number is how many bytes that were in all. The other forms make so many records, each another one, with operations of
// every kind. `back UPDATES ROUNDS` writes each, reads it and writes it again; the number is how many came back as they
// were. `fronts UPDATES ROUNDS` reads every front of each frame, and `bent UPDATES ROUNDS` each frame with every byte
// changed in every way; the number is how many answers were wrong.
ghost use Rattle.wire_codec.specs.declared.item.TheConstants.{VERSION};
ghost use Rattle.wire_codec.specs.Spelling.{IsSpelled};

use crate::counter::counter;
use crate::fault::Fault;
use crate::sets::word_of;
use ids_core::{Dot, Name, NoMemory, ObjectId, OpId, Tags};
use std::alloc::Global;
use tx_core::{Op, Record, Tx, Update, Updates};
use vv_core::{Stamp, Vector};
use wire_codec::{Decoded, Item, decode, encode};

/// What the work gives, for the form and the two numbers; nothing where they are of no form.
pub fn worked(
    alloc: Global,
    form: &str,
    updates: &str,
    rounds: &str,
) -> Option<Result<i128, Fault>> {
    let Ok(updates) = updates.parse::<u32>() else {
        return None;
    };
    let Ok(rounds) = rounds.parse::<u32>() else {
        return None;
    };
    match form {
        "encode" => Some(encoded(alloc, updates, rounds)),
        "decode" => Some(decoded(alloc, updates, rounds)),
        "back" => Some(came_back(alloc, updates, rounds)),
        "fronts" => Some(of_frames(alloc, updates, rounds, Look::Fronts)),
        "bent" => Some(of_frames(alloc, updates, rounds, Look::Bends)),
        _ => None,
    }
}

// How many bytes so many frames of one record have in all.
fn encoded(alloc: Global, updates: u32, rounds: u32) -> Result<i128, Fault> {
    let item = item_of(plain(alloc, updates)?);
    if !item.fits() {
        return Ok(0);
    }
    Ok(i128::from(written(alloc, &item, rounds)?))
}

// How many bytes an item has that is written so many times.
fn written(alloc: Global, item: &Item, rounds: u32) -> Result<u64, NoMemory>
    requires { IsSpelled VERSION item.now }
{
    let mut sum: u64 = 0;
    for _ in 0..rounds {
        sum = sum.saturating_add(encode(alloc, item)?.len() as u64);
    }
    Ok(sum)
}

// How many bytes are read of the frame of one record, so many times.
fn decoded(alloc: Global, updates: u32, rounds: u32) -> Result<i128, Fault> {
    let item = item_of(plain(alloc, updates)?);
    let mut sum: u64 = 0;
    if item.fits() {
        let bytes = encode(alloc, &item)?;
        for _ in 0..rounds {
            if let Decoded::Whole { used, .. } = decode(alloc, &bytes)? {
                sum = sum.saturating_add(used);
            }
        }
    }
    Ok(i128::from(sum))
}

// How many of so many records come back as they were.
fn came_back(alloc: Global, updates: u32, rounds: u32) -> Result<i128, Fault> {
    let mut count: u64 = 0;
    for number in 0..rounds {
        if comes_back(alloc, &item_of(mixed(alloc, number, updates)?))? {
            count = count.saturating_add(1);
        }
    }
    Ok(i128::from(count))
}

// Whether an item is written, read, and written again with the same bytes.
fn comes_back(alloc: Global, item: &Item) -> Result<bool, NoMemory> {
    if !item.fits() {
        return Ok(false);
    }
    let bytes = encode(alloc, item)?;
    match decode(alloc, &bytes)? {
        Decoded::Whole { item, used } => {
            if !item.fits() || used != bytes.len() as u64 {
                return Ok(false);
            }
            let again = encode(alloc, &item)?;
            Ok(again.as_slice() == bytes.as_slice())
        }
        _ => Ok(false),
    }
}

// What is tried of a frame.
#[derive(Clone, Copy)]
enum Look {
    Fronts,
    Bends,
}

// How many answers are wrong of so many frames.
fn of_frames(alloc: Global, updates: u32, rounds: u32, look: Look) -> Result<i128, Fault> {
    let mut count: u64 = 0;
    for number in 0..rounds {
        let item = item_of(mixed(alloc, number, updates)?);
        count = count.saturating_add(wrong_of(alloc, &item, look)?);
    }
    Ok(i128::from(count))
}

// How many answers are wrong of the frame of an item that fits.
fn wrong_of(alloc: Global, item: &Item, look: Look) -> Result<u64, NoMemory> {
    if !item.fits() {
        return Ok(0);
    }
    let frame = encode(alloc, item)?;
    match look {
        Look::Fronts => wrong_fronts(alloc, &frame),
        Look::Bends => wrong_bends(alloc, frame),
    }
}

// How many fronts of a frame are not said to be short.
fn wrong_fronts(alloc: Global, frame: &[u8]) -> Result<u64, NoMemory> {
    let mut count: u64 = 0;
    for end in 0..frame.len() {
        if !matches!(decode(alloc, &frame[..end])?, Decoded::Short) {
            count = count.saturating_add(1);
        }
    }
    Ok(count)
}

// How many changes of one byte of a frame are read as what they do not spell.
fn wrong_bends(alloc: Global, frame: Vec<u8>) -> Result<u64, NoMemory> {
    let mut bytes = frame;
    let mut count: u64 = 0;
    for at in 0..bytes.len() {
        let was = bytes[at];
        for change in 1..=u8::MAX {
            bytes[at] = was ^ change;
            if at != 1 && !is_spelled(alloc, &bytes)? {
                count = count.saturating_add(1);
            }
        }
        bytes[at] = was;
    }
    Ok(count)
}

// Whether bytes of the version that is written are at fault, or the item that they are read as has just these bytes.
fn is_spelled(alloc: Global, bytes: &[u8]) -> Result<bool, NoMemory> {
    match decode(alloc, bytes)? {
        Decoded::Whole { item, used } => {
            if !item.fits() {
                return Ok(false);
            }
            let again = encode(alloc, &item)?;
            Ok(again.len() as u64 == used && bytes.starts_with(&again))
        }
        _ => Ok(true),
    }
}

// The item of a record, on its first way.
fn item_of(item: Record) -> Item {
    Item::Rec { item, hops: 0 }
}

// The record of centre 1 among two, with these updates.
fn record_of(number: u32, updates: Updates) -> Record {
    let seq = number % 1_000_000 + 1;
    let count = u64::from(number) + 1;
    let dot = Dot {
        client: number % 1_024 + 1,
        number: count,
    };
    let tx = Tx {
        dot,
        rank: count,
        snap: Vector::zero(2),
        updates,
    };
    Record {
        stamp: Stamp { centre: 1, seq },
        deps: Vector::zero(2),
        tx,
    }
}

// A record of so many updates of one counter.
fn plain(alloc: Global, updates: u32) -> Result<Record, Fault> {
    let object = counter(b"total")?;
    Ok(record_of(0, increments(alloc, &object, updates)?))
}

// So many updates that add 1 to a counter.
fn increments(alloc: Global, object: &ObjectId, count: u32) -> Result<Updates, NoMemory> {
    let mut list = Updates::new(alloc);
    for _ in 0..count {
        put(&mut list, one_more(object))?;
    }
    Ok(list)
}

// The update that adds 1 to a counter.
fn one_more(object: &ObjectId) -> Update {
    Update {
        object: *object,
        op: Op::Inc { delta: 1 },
    }
}

// One update more in a list.
fn put(list: &mut Updates, update: Update) -> Result<(), NoMemory> {
    Ok(list.push(update)?)
}

// The record of a number, with so many updates of every kind.
fn mixed(alloc: Global, number: u32, updates: u32) -> Result<Record, Fault> {
    let mut list = Updates::new(alloc);
    for place in 0..updates {
        let turn = number.wrapping_add(place);
        let update = update_of(alloc, turn)?;
        put(&mut list, update)?;
    }
    Ok(record_of(number, list))
}

// The update of a turn.
fn update_of(alloc: Global, turn: u32) -> Result<Update, Fault> {
    let name = word_of(turn % 456_976)?;
    let word = word_of(turn / 7 % 456_976)?;
    let op = op_of(alloc, turn, word)?;
    let object = ObjectId {
        sort: op.sort(),
        name,
    };
    Ok(Update { object, op })
}

// The operation of a turn, with a word.
fn op_of(alloc: Global, turn: u32, word: Name) -> Result<Op, NoMemory> {
    Ok(match turn % 6 {
        0 => Op::Inc {
            delta: i64::from(turn % 1_000) - 500,
        },
        1 => Op::Write { word },
        2 => Op::Add {
            word,
            over: tags_of(alloc, turn)?,
        },
        3 => Op::Remove {
            word,
            over: tags_of(alloc, turn)?,
        },
        4 => Op::Put {
            key: word,
            word,
            over: tags_of(alloc, turn)?,
        },
        _ => Op::Erase {
            key: word,
            over: tags_of(alloc, turn)?,
        },
    })
}

// A few tags, which ascend.
fn tags_of(alloc: Global, turn: u32) -> Result<Tags, NoMemory> {
    let dot = Dot {
        client: turn % 1_024 + 1,
        number: 1,
    };
    let mut list = Vec::new(alloc);
    for place in 0..(turn % 4) as u16 {
        list.push(OpId { dot, place })?;
    }
    match Tags::of(list) {
        Ok(tags) => Ok(tags),
        Err(_list) => Err(NoMemory),
    }
}
