// Reads a script.
ghost use Rattle.std.specs.Prelude.{◌≡◌, ◌≢◌, ◌≤◌, ◌++◌, ℕ, List, Ok, Err, length, take, true, IfOk, IfSome, OnOk};
ghost use Rattle.script_core.specs.Limits.{PassesLimits};
ghost use Rattle.script_core.specs.Scripts.{IsInRange};
ghost use Rattle.script_reader.specs.declared.fault.Cause.{Cause as CauseOf};
ghost use Rattle.script_reader.specs.Lines.{line_taken};
ghost use Rattle.script_reader.specs.Readings.{header_in};
ghost use Rattle.script_reader.specs.Scripts.{ended, script_read, script_with};
ghost use Rattle.script_reader.specs.Words.{is_plain_text, texts_of, words_of};

use crate::fault::{Cause, ScriptFault};
use crate::lines::next_line;
use crate::reading::{LineFault, Reading};
use crate::words::MOST_WORDS;
use ids_core::MOST_RECORDS;
use script_core::{DEFAULT_CACHE, DEFAULT_ROUNDS, DEFAULT_THREADS, Header, Script};
use std::alloc::Global;

/// The script that bytes are. It is `Refused` where they are none, with the first line at fault and why it is, and
/// `NoMemory` where there is no memory for the steps. Where the bytes are a front of an input that passes the limits
/// of a script, this is the answer for the whole input.
#[tactic(auto, using(crate::proofs::ScriptRanges::script_in_range))]
pub fn parse(alloc: Global, bytes: &[u8]) -> Result<Script, ScriptFault>
    ensures exact { result ≢ Err ScriptFault.NoMemory → result ≡ script_read bytes.now }
    ensures range { IfOk result IsInRange }
    ensures cut_off { result ≢ Err ScriptFault.NoMemory → PassesLimits bytes.now → (more : List ℕ) → result ≡ script_read (bytes.now ++ more) }
{
    read_lines(alloc, bytes)
}

// The script that the lines of bytes are.
#[tactic(auto, unfolding(crate::specs::Scripts::script_read))]
fn read_lines(alloc: Global, bytes: &[u8]) -> Result<Script, ScriptFault>
    ensures { result ≢ Err ScriptFault.NoMemory → result ≡ script_read bytes.now }
{
    let mut reading = Reading::nothing(alloc);
    let mut number: u32 = 1;
    let mut rest = bytes;
    let none: &[u8] = b"";
    let mut places = [none; MOST_WORDS];
    'lines: while let Some((line, more, cut)) = next_line(rest, &mut places) {
        match take_line(&mut reading, alloc, number, line, &places, cut) {
            Ok(()) => {}
            Err(LineFault::Refused(cause)) => {
                return Err(ScriptFault::Refused {
                    line: number,
                    cause,
                });
            }
            Err(LineFault::NoMemory) => return Err(ScriptFault::NoMemory),
        }
        number += 1;
        rest = more;
    }
    ended(number, reading)
}

// Takes the line of this number, where it is skipped or may stand behind those that were taken. Where it was cut, so many
// words of it are in their places.
fn take_line(
    reading: &mut Reading,
    alloc: Global,
    number: u32,
    line: &[u8],
    places: &[&[u8]],
    cut: Option<usize>,
) -> Result<(), LineFault>
    requires places { length places.now ≡ MOST_WORDS }
    requires few { IfSome cut (λ count. count ≤ length places.now) }
    requires plain { IfSome cut (λ count. is_plain_text line.now ≡ true) }
    requires words { IfSome cut (λ count. texts_of (take count places.now) ≡ words_of line.now) }
    ensures taken { OnOk result (line_taken reading.old number line.now ≡ Ok reading.new) }
    ensures refused { (why : CauseOf) → result ≡ Err (LineFault.Refused why) → line_taken reading.old number line.now ≡ Err why }
{
    match cut {
        Some(count) => reading.read_cut(alloc, number, line, &places[..count]),
        None => reading.read(alloc, number, line),
    }
}

// What ends before the line of this number: a script, or a header or a phase that is not complete.
fn ended(number: u32, reading: Reading) -> Result<Script, ScriptFault>
    ensures { result ≡ ended (header_in reading) number reading }
{
    match reading.header() {
        Some(header) if reading.phase.is_none() => Ok(script_with(header, reading)),
        _ => Err(ScriptFault::Refused {
            line: number,
            cause: Cause::Place,
        }),
    }
}

// The script with this header of which this was read.
fn script_with(header: Header, reading: Reading) -> Script
    ensures { result ≡ script_with header reading }
{
    Script {
        n: header.n,
        k: header.k,
        clients: header.clients,
        cache: reading.cache.unwrap_or(DEFAULT_CACHE),
        limit: reading.limit.map_or(u64::from(MOST_RECORDS), u64::from),
        threads: reading.threads.unwrap_or(DEFAULT_THREADS),
        rounds: reading.rounds.unwrap_or(DEFAULT_ROUNDS),
        taps: reading.taps,
        sections: reading.sections,
    }
}
