// The lines of steps as bytes.
ghost use Rattle.std.specs.Prelude.{◌≡◌, ◌++◌, OnOk, codes, decimal, map};
ghost use Rattle.std.specs.Fmt.{signed_decimal};
ghost use Rattle.script_core.specs.Steps.{object_text, shown_text};
ghost use Rattle.print_text.specs.Text.{centres_text, client_text, end_text, fed_text, lack_text, lacking_text, later, line_text, miss_text, seen_text, ship_end_text, stamp_text, step_text, vector_text};

use crate::value::{write_sum, write_value};
use dc_talk::{Fed, Line, Miss, PushEnd, Seen, ShipEnd, StepWord};
use ids_core::{Name, NoMemory, ObjectId, Sort};
use itoa::Buffer;
use vv_core::{Lack, Stamp, Vector};

/// Writes a line at the end, without its line feed. An `Err` leaves a part of the line there.
pub fn write_line(text: &mut Vec<u8>, line: &Line) -> Result<(), NoMemory>
    ensures { OnOk result (text.new.items ≡ text.old.items ++ line_text line.now) }
{
    match line {
        Line::At { client, centre } => write_centre(text, *client, b" at ", *centre),
        Line::Refused {
            client,
            centre,
            lack,
        } => write_refused(text, *client, *centre, lack),
        Line::ConnectMissed {
            client,
            centre,
            miss,
        } => write_connect_missed(text, *client, *centre, *miss),
        Line::BeginOpen { client } => write_words(text, *client, b" begin open"),
        Line::BeginClock { client } => write_words(text, *client, b" begin clock"),
        Line::Closed {
            client,
            word,
            object,
        } => write_step(text, *client, *word, object, b" closed"),
        Line::ManyUpdates {
            client,
            word,
            object,
        } => write_step(text, *client, *word, object, b" many 256"),
        Line::ManyTags {
            client,
            word,
            object,
            count,
        } => write_tags(text, *client, *word, object, *count),
        Line::Unconnected {
            client,
            word,
            object,
        } => write_step(text, *client, *word, object, b" unconnected"),
        Line::FetchMissed {
            client,
            word,
            object,
            miss,
        } => write_fetch_missed(text, *client, *word, object, *miss),
        Line::FetchLacks {
            client,
            word,
            object,
            lack,
        } => write_fetch_lacks(text, *client, *word, object, lack),
        Line::FetchPruned {
            client,
            word,
            object,
            centre,
            base,
            at,
        } => {
            write_step(text, *client, *word, object, b" pruned ")?;
            write_pruned(text, *centre, *base, *at)
        }
        Line::FetchIgnored {
            client,
            word,
            object,
        } => write_step(text, *client, *word, object, b" ignored"),
        Line::ReadValue {
            client,
            object,
            value,
        } => {
            write_step(text, *client, StepWord::Read, object, b" ")?;
            write_value(text, value)
        }
        Line::Short {
            client,
            word,
            object,
            rights,
        } => write_rights(text, *client, *word, object, b" short ", *rights),
        Line::RightsValue {
            client,
            object,
            rights,
        } => write_rights(text, *client, StepWord::Rights, object, b" ", *rights),
        Line::CommitNumber { client, number } => write_numbered(
            text,
            *client,
            b" commit ",
            *number,
        ),
        Line::CommitNone { client } => write_words(text, *client, b" commit none"),
        Line::CommitClosed { client } => write_words(text, *client, b" commit closed"),
        Line::CommitPending { client } => write_words(text, *client, b" commit pending 1024"),
        Line::AbortClosed { client } => write_words(text, *client, b" abort closed"),
        Line::PushUnconnected { client } => write_words(text, *client, b" push unconnected"),
        Line::PushNone { client } => write_words(text, *client, b" push none"),
        Line::Push {
            client,
            number,
            end,
        } => write_push(text, *client, *number, end),
        Line::AgainNone {
            client,
            centre,
            number,
        } => {
            write_again(text, *client, *centre, *number)?;
            text.extend_from_slice(b"none")?;
            Ok(())
        }
        Line::Again {
            client,
            centre,
            number,
            end,
        } => {
            write_again(text, *client, *centre, *number)?;
            write_end(text, end)
        }
        Line::Flushed { client, own } => write_numbered(text, *client, b" flushed ", *own),
        Line::Sees {
            client,
            vector,
            mine,
        } => write_sees(text, *client, vector, *mine),
        Line::RefreshUnconnected { client } => write_words(text, *client, b" refresh unconnected"),
        Line::RefreshOpen { client } => write_words(text, *client, b" refresh open"),
        Line::RefreshLacks { client, lack } => {
            write_words(text, *client, b" refresh ")?;
            write_lack(text, lack)
        }
        Line::RefreshMissed { client, miss } => {
            write_words(text, *client, b" refresh ")?;
            write_miss(text, *miss)
        }
        Line::RefreshIgnored { client } => write_words(text, *client, b" refresh ignored"),
        Line::Ship { from, to, end } => {
            write_centres(text, *to, b" from ", *from)?;
            text.extend_from_slice(b" ")?;
            write_ship_end(text, end)
        }
        Line::Relay {
            from,
            origin,
            to,
            end,
        } => {
            write_centres(text, *to, b" from ", *from)?;
            write_named(text, b" of ", u64::from(*origin))?;
            text.extend_from_slice(b" ")?;
            write_ship_end(text, end)
        }
        Line::ToldDown { from, to, centre } => {
            write_centres(text, *to, b" told ", *from)?;
            write_named(text, b" down ", u64::from(*centre))
        }
        Line::ToldMisfit { from, to } => {
            write_centres(text, *to, b" told ", *from)?;
            text.extend_from_slice(b" misfit")?;
            Ok(())
        }
        Line::Based {
            centre,
            vector,
            folded,
            trimmed,
        } => write_based(text, *centre, vector, *folded, *trimmed),
        Line::BaseDown { centre } => {
            write_number(text, u64::from(*centre))?;
            text.extend_from_slice(b" base down")?;
            Ok(())
        }
        Line::Feed { centre, fed } => {
            write_number(text, u64::from(*centre))?;
            text.extend_from_slice(b" ")?;
            write_fed(text, fed)
        }
        Line::Look {
            client,
            centre,
            object,
            seen,
        } => write_look(text, *client, *centre, object, seen.as_seen()),
    }
}

fn write_refused(text: &mut Vec<u8>, client: u32, centre: u8, lack: &Lack) -> Result<(), NoMemory>
    ensures { OnOk result (text.new.items ≡ text.old.items ++ (client_text client ++ codes " refused " ++ decimal centre ++ codes " " ++ lack_text lack.now)) }
{
    write_centre(text, client, b" refused ", centre)?;
    text.extend_from_slice(b" ")?;
    write_lack(text, lack)
}

fn write_connect_missed(
    text: &mut Vec<u8>,
    client: u32,
    centre: u8,
    miss: Miss,
) -> Result<(), NoMemory>
    ensures { OnOk result (text.new.items ≡ text.old.items ++ (client_text client ++ codes " connect " ++ decimal centre ++ codes " " ++ miss_text miss)) }
{
    write_centre(text, client, b" connect ", centre)?;
    text.extend_from_slice(b" ")?;
    write_miss(text, miss)
}

fn write_tags(
    text: &mut Vec<u8>,
    client: u32,
    word: StepWord,
    object: &ObjectId,
    count: u64,
) -> Result<(), NoMemory>
    ensures { OnOk result (text.new.items ≡ text.old.items ++ (step_text client word object.now ++ codes " tags " ++ decimal count)) }
{
    write_step(text, client, word, object, b" tags ")?;
    write_number(text, count)
}

fn write_fetch_missed(
    text: &mut Vec<u8>,
    client: u32,
    word: StepWord,
    object: &ObjectId,
    miss: Miss,
) -> Result<(), NoMemory>
    ensures { OnOk result (text.new.items ≡ text.old.items ++ (step_text client word object.now ++ codes " " ++ miss_text miss)) }
{
    write_step(text, client, word, object, b" ")?;
    write_miss(text, miss)
}

fn write_fetch_lacks(
    text: &mut Vec<u8>,
    client: u32,
    word: StepWord,
    object: &ObjectId,
    lack: &Lack,
) -> Result<(), NoMemory>
    ensures { OnOk result (text.new.items ≡ text.old.items ++ (step_text client word object.now ++ codes " " ++ lack_text lack.now)) }
{
    write_step(text, client, word, object, b" ")?;
    write_lack(text, lack)
}

// A step on a bounded counter with the words and the rights behind it.
fn write_rights(
    text: &mut Vec<u8>,
    client: u32,
    word: StepWord,
    object: &ObjectId,
    words: &[u8],
    rights: i128,
) -> Result<(), NoMemory>
    ensures { OnOk result (text.new.items ≡ text.old.items ++ (step_text client word object.now ++ words.now ++ signed_decimal rights)) }
{
    write_step(text, client, word, object, words)?;
    write_sum(text, rights)
}

// Where a base is above a snapshot.
fn write_pruned(text: &mut Vec<u8>, centre: u8, base: u64, at: u64) -> Result<(), NoMemory>
    ensures { OnOk result (text.new.items ≡ text.old.items ++ (decimal centre ++ codes ":" ++ decimal base ++ codes " at " ++ decimal at)) }
{
    write_number(text, u64::from(centre))?;
    write_named(text, b":", base)?;
    write_named(text, b" at ", at)
}

fn write_push(text: &mut Vec<u8>, client: u32, number: u64, end: &PushEnd) -> Result<(), NoMemory>
    ensures { OnOk result (text.new.items ≡ text.old.items ++ (client_text client ++ codes " push " ++ decimal number ++ codes " " ++ end_text end.now)) }
{
    write_numbered(text, client, b" push ", number)?;
    text.extend_from_slice(b" ")?;
    write_end(text, end)
}

// A late copy of a commit, in front of how it ended.
fn write_again(text: &mut Vec<u8>, client: u32, centre: u8, number: u64) -> Result<(), NoMemory>
    ensures { OnOk result (text.new.items ≡ text.old.items ++ (client_text client ++ codes " again " ++ decimal centre ++ codes " " ++ decimal number ++ codes " ")) }
{
    write_centre(text, client, b" again ", centre)?;
    write_named(text, b" ", number)?;
    text.extend_from_slice(b" ")?;
    Ok(())
}

fn write_sees(text: &mut Vec<u8>, client: u32, vector: &Vector, mine: u64) -> Result<(), NoMemory>
    ensures { OnOk result (text.new.items ≡ text.old.items ++ (client_text client ++ codes " sees " ++ vector_text vector.now ++ codes " own " ++ decimal mine)) }
{
    write_words(text, client, b" sees ")?;
    write_vector(text, vector)?;
    write_named(text, b" own ", mine)
}

fn write_based(
    text: &mut Vec<u8>,
    centre: u8,
    vector: &Vector,
    folded: u64,
    trimmed: u64,
) -> Result<(), NoMemory>
    ensures { OnOk result (text.new.items ≡ text.old.items ++ (decimal centre ++ codes " base " ++ vector_text vector.now ++ codes " folded " ++ decimal folded ++ codes " trimmed " ++ decimal trimmed)) }
{
    write_number(text, u64::from(centre))?;
    text.extend_from_slice(b" base ")?;
    write_vector(text, vector)?;
    write_named(text, b" folded ", folded)?;
    write_named(text, b" trimmed ", trimmed)
}

fn write_fed(text: &mut Vec<u8>, fed: &Fed) -> Result<(), NoMemory>
    ensures { OnOk result (text.new.items ≡ text.old.items ++ fed_text fed.now) }
{
    match fed {
        Fed::Shown { vector } => {
            text.extend_from_slice(b"fed ")?;
            write_vector(text, vector)?;
        }
        Fed::Down => text.extend_from_slice(b"feed down")?,
        Fed::Pruned => text.extend_from_slice(b"feed pruned")?,
        Fed::Refused => text.extend_from_slice(b"feed refused")?,
    }
    Ok(())
}

fn write_look(
    text: &mut Vec<u8>,
    client: u32,
    centre: u8,
    object: &ObjectId,
    seen: &Seen,
) -> Result<(), NoMemory>
    ensures { OnOk result (text.new.items ≡ text.old.items ++ (client_text client ++ codes " tap " ++ decimal centre ++ codes " " ++ object_text object.now ++ codes " at " ++ seen_text seen.now)) }
{
    write_centre(text, client, b" tap ", centre)?;
    text.extend_from_slice(b" ")?;
    write_object(text, object)?;
    text.extend_from_slice(b" at ")?;
    write_seen(text, seen)
}

// The vector at which a look sees a value, and the value.
fn write_seen(text: &mut Vec<u8>, seen: &Seen) -> Result<(), NoMemory>
    ensures { OnOk result (text.new.items ≡ text.old.items ++ seen_text seen.now) }
{
    write_vector(text, &seen.vector)?;
    text.extend_from_slice(b" ")?;
    write_value(text, &seen.value)
}

// A client with the words and the centre behind it.
fn write_centre(text: &mut Vec<u8>, client: u32, words: &[u8], centre: u8) -> Result<(), NoMemory>
    ensures { OnOk result (text.new.items ≡ text.old.items ++ (client_text client ++ words.now ++ decimal centre)) }
{
    write_numbered(text, client, words, u64::from(centre))
}

// A client with the words behind it.
fn write_words(text: &mut Vec<u8>, client: u32, words: &[u8]) -> Result<(), NoMemory>
    ensures { OnOk result (text.new.items ≡ text.old.items ++ (client_text client ++ words.now)) }
{
    text.extend_from_slice(b"c")?;
    write_number(text, u64::from(client))?;
    text.extend_from_slice(words)?;
    Ok(())
}

// A client with the words and the number behind it.
fn write_numbered(
    text: &mut Vec<u8>,
    client: u32,
    words: &[u8],
    number: u64,
) -> Result<(), NoMemory>
    ensures { OnOk result (text.new.items ≡ text.old.items ++ (client_text client ++ words.now ++ decimal number)) }
{
    write_words(text, client, words)?;
    write_number(text, number)
}

// A step on an object with the words behind it.
fn write_step(
    text: &mut Vec<u8>,
    client: u32,
    word: StepWord,
    object: &ObjectId,
    words: &[u8],
) -> Result<(), NoMemory>
    ensures { OnOk result (text.new.items ≡ text.old.items ++ (step_text client word object.now ++ words.now)) }
{
    match word {
        StepWord::Inc => write_words(text, client, b" inc ")?,
        StepWord::Set => write_words(text, client, b" set ")?,
        StepWord::Add => write_words(text, client, b" add ")?,
        StepWord::Del => write_words(text, client, b" del ")?,
        StepWord::Put => write_words(text, client, b" put ")?,
        StepWord::Drop => write_words(text, client, b" drop ")?,
        StepWord::Read => write_words(text, client, b" read ")?,
        StepWord::Grant => write_words(text, client, b" grant ")?,
        StepWord::Give => write_words(text, client, b" give ")?,
        StepWord::Take => write_words(text, client, b" take ")?,
        StepWord::Rights => write_words(text, client, b" rights ")?,
    }
    write_shown(text, word, object)?;
    text.extend_from_slice(words)?;
    Ok(())
}

// An object as the lines of a step with this word name it.
fn write_shown(text: &mut Vec<u8>, word: StepWord, object: &ObjectId) -> Result<(), NoMemory>
    ensures { OnOk result (text.new.items ≡ text.old.items ++ shown_text word object.now) }
{
    match word {
        StepWord::Grant | StepWord::Give | StepWord::Take | StepWord::Rights => {
            write_bounded(text, &object.name)
        }
        _ => write_object(text, object),
    }
}

// A bounded counter of this name.
fn write_bounded(text: &mut Vec<u8>, name: &Name) -> Result<(), NoMemory>
    ensures { OnOk result (text.new.items ≡ text.old.items ++ (codes "b." ++ name.now)) }
{
    text.extend_from_slice(b"b.")?;
    text.extend_from_slice(name.as_slice())?;
    Ok(())
}

/// Writes an object at the end, as scripts name it. An `Err` leaves a part of it there.
pub fn write_object(text: &mut Vec<u8>, object: &ObjectId) -> Result<(), NoMemory>
    ensures { OnOk result (text.new.items ≡ text.old.items ++ object_text object.now) }
{
    match object.sort {
        Sort::Counter => text.extend_from_slice(b"c.")?,
        Sort::Register => text.extend_from_slice(b"r.")?,
        Sort::Set => text.extend_from_slice(b"s.")?,
        Sort::Map => text.extend_from_slice(b"m.")?,
    }
    text.extend_from_slice(object.name.as_slice())?;
    Ok(())
}

/// Writes the entries of a vector at the end, with commas between them. An `Err` leaves a part of them there.
pub fn write_vector(text: &mut Vec<u8>, vector: &Vector) -> Result<(), NoMemory>
    ensures { OnOk result (text.new.items ≡ text.old.items ++ vector_text vector.now) }
{
    if let [first, rest @ ..] = vector.as_slice() {
        write_entry(text, *first)?;
        write_later(text, rest)?;
    }
    Ok(())
}

// The digits of an entry.
fn write_entry(text: &mut Vec<u8>, entry: u32) -> Result<(), NoMemory>
    ensures { OnOk result (text.new.items ≡ text.old.items ++ decimal entry) }
{
    write_number(text, u64::from(entry))
}

// Entries behind a first one.
fn write_later(text: &mut Vec<u8>, entries: &[u32]) -> Result<(), NoMemory>
    ensures { OnOk result (text.new.items ≡ text.old.items ++ later 44 (map decimal entries.now)) }
{
    for entry in entries {
        write_named(text, b",", u64::from(*entry))?;
    }
    Ok(())
}

fn write_end(text: &mut Vec<u8>, end: &PushEnd) -> Result<(), NoMemory>
    ensures { OnOk result (text.new.items ≡ text.old.items ++ end_text end.now) }
{
    match end {
        PushEnd::Stamped { stamp } => write_stamp(text, stamp),
        PushEnd::Known { through } => write_named(text, b"known ", *through),
        PushEnd::Full { limit } => write_named(text, b"full ", *limit),
        PushEnd::Order { have } => write_named(text, b"order ", *have),
        PushEnd::Lacks { lack } => write_lack(text, lack),
        PushEnd::Missed { miss } => write_miss(text, *miss),
    }
}

fn write_stamp(text: &mut Vec<u8>, stamp: &Stamp) -> Result<(), NoMemory>
    ensures { OnOk result (text.new.items ≡ text.old.items ++ (codes "stamp " ++ stamp_text stamp.now)) }
{
    write_named(text, b"stamp ", u64::from(stamp.centre))?;
    write_named(text, b":", u64::from(stamp.seq))
}

fn write_lack(text: &mut Vec<u8>, lack: &Lack) -> Result<(), NoMemory>
    ensures { OnOk result (text.new.items ≡ text.old.items ++ lack_text lack.now) }
{
    write_lacking(text, b"lacks ", lack)
}

/// Writes what is lacked at the end, behind a word: the entry that is needed and the one that is there. An `Err` leaves
/// a part of it there.
pub fn write_lacking(text: &mut Vec<u8>, word: &[u8], lack: &Lack) -> Result<(), NoMemory>
    ensures { OnOk result (text.new.items ≡ text.old.items ++ lacking_text word.now lack.now) }
{
    write_named(text, word, u64::from(lack.centre))?;
    write_named(text, b":", lack.need)?;
    write_named(text, b" has ", lack.have)
}

// How a delivery by hand ended.
fn write_ship_end(text: &mut Vec<u8>, end: &ShipEnd) -> Result<(), NoMemory>
    ensures { OnOk result (text.new.items ≡ text.old.items ++ ship_end_text end.now) }
{
    match end {
        ShipEnd::Absent { seq } => write_named(text, b"none ", *seq),
        ShipEnd::Applied { seq } => write_named(text, b"applied ", *seq),
        ShipEnd::Alias { seq } => write_named(text, b"alias ", *seq),
        ShipEnd::Old { have } => write_named(text, b"old ", *have),
        ShipEnd::Gap { have } => write_named(text, b"gap ", *have),
        ShipEnd::Waits { lack } => write_lacking(text, b"waits ", lack),
        ShipEnd::Orphan { number, have } => {
            write_named(text, b"orphan ", *number)?;
            write_named(text, b" has ", *have)
        }
        ShipEnd::Trimmed { from } => write_named(text, b"trimmed ", *from),
        ShipEnd::Down { centre } => write_named(text, b"down ", u64::from(*centre)),
        ShipEnd::Misfit => {
            text.extend_from_slice(b"misfit")?;
            Ok(())
        }
    }
}

// A centre, and another one behind a word.
fn write_centres(text: &mut Vec<u8>, to: u8, word: &[u8], from: u8) -> Result<(), NoMemory>
    ensures { OnOk result (text.new.items ≡ text.old.items ++ centres_text to word.now from) }
{
    write_number(text, u64::from(to))?;
    write_named(text, word, u64::from(from))
}

fn write_miss(text: &mut Vec<u8>, miss: Miss) -> Result<(), NoMemory>
    ensures { OnOk result (text.new.items ≡ text.old.items ++ miss_text miss) }
{
    match miss {
        Miss::Unreachable => text.extend_from_slice(b"unreachable")?,
        Miss::Lost => text.extend_from_slice(b"lost")?,
        Miss::Misfit => text.extend_from_slice(b"misfit")?,
    }
    Ok(())
}

/// Writes words at the end, and a number behind them. An `Err` leaves a part of it there.
pub fn write_named(text: &mut Vec<u8>, words: &[u8], number: u64) -> Result<(), NoMemory>
    ensures { OnOk result (text.new.items ≡ text.old.items ++ (words.now ++ decimal number)) }
{
    text.extend_from_slice(words)?;
    write_number(text, number)
}

fn write_number(text: &mut Vec<u8>, number: u64) -> Result<(), NoMemory>
    ensures { OnOk result (text.new.items ≡ text.old.items ++ decimal number) }
{
    let mut buffer = Buffer::new();
    text.extend_from_slice(buffer.format(number).as_bytes())?;
    Ok(())
}
