// The top call on sources and sinks that fail.
use io_edge::{FreeGate, Gate, MemorySink, MemorySource, Sink, Source, SteadySink, SteadySource};
use run_progress::Progress;
use std::alloc::{AllocError, Global};
use std::sync::Wait;
use std::test::Fail;
use std::thread::Threads;
use top_call::{Ended, swift_main};

const FIRST_PATH: &[u8] =
    b"centres 1 k 1\nclients 1\nc1 connect 1\nc1 begin\nc1 inc c.a 5\nc1 read c.a\nc1 commit\nc1 push\nc1 refresh\n";

const FIRST_TEXT: &[u8] =
    b"c1 at 1\nc1 read c.a 5\nc1 commit 1\nc1 push 1 stamp 1:1\nc1 sees 1 own 1\n";

/// How the top call ends for one word, over a source that may be read and a sink that may be written to.
pub fn ended_of<R: Threads + Wait + Sync, S: Source, W: Sink, G: Gate + Progress>(
    rt: &R,
    alloc: Global,
    word: &str,
    source: &mut S,
    sink: &mut W,
    gate: &G,
) -> Result<Ended, AllocError>
    requires may_read { S.may_read source.old }
    requires may_write { W.may_write sink.old }
{
    let mut words = Vec::new(alloc);
    words.push(String::from_str(alloc, word)?)?;
    Ok(swift_main(rt, alloc, &words, source, sink, gate))
}

// Whether three reads of 100 bytes of a line without an end are all that is read of it.
fn stops_past_the_limits<R: Threads + Wait + Sync>(
    rt: &R,
    alloc: Global,
) -> Result<bool, AllocError> {
    let line = Vec::from_slice(alloc, &[b'a'; 400])?;
    let mut source = MemorySource::new(line, 100, Vec::new(alloc));
    let mut sink = SteadySink::new(alloc);
    let ended = ended_of(rt, alloc, "serial", &mut source, &mut sink, &FreeGate)?;
    Ok(ended.status == 3 && source.calls() == 3)
}

#[test]
fn reading_stops_past_the_limits(rt: HostRuntime) -> Result<(), Fail> {
    assert!(rt; stops_past_the_limits(&rt, rt.alloc())?);
    Ok(())
}

// A run of the first path whose source moves so many bytes a call and fails at one of them: nothing is
// written, and no call follows that one.
fn stops_reading<R: Threads + Wait + Sync>(
    rt: &R,
    alloc: Global,
    step: usize,
    call: u64,
) -> Result<bool, AllocError> {
    let fails = vec![in alloc; call]?;
    let mut source = MemorySource::new(Vec::from_slice(alloc, FIRST_PATH)?, step.max(1), fails);
    let mut sink = MemorySink::new(alloc, 64, Vec::new(alloc));
    let ended = ended_of(rt, alloc, "serial", &mut source, &mut sink, &FreeGate)?;
    Ok(ended.status == 4 && source.calls() == call && sink.calls() == 0)
}

#[test]
fn each_read_may_fail(rt: HostRuntime) -> Result<(), Fail> {
    // The script has 100 bytes, and one more read finds the end.
    for (step, last) in [(1, 101), (7, 16), (16, 8)] {
        for call in 1..=last {
            assert!(rt; stops_reading(&rt, rt.alloc(), step, call)?);
        }
    }
    Ok(())
}

// A run of the first path whose sink takes so many bytes a call and fails at one of them: it has the
// bytes of the calls before, and no call follows that one.
fn stops_writing<R: Threads + Wait + Sync>(
    rt: &R,
    alloc: Global,
    step: usize,
    call: u64,
    taken: usize,
) -> Result<bool, AllocError> {
    let fails = vec![in alloc; call]?;
    let mut source = SteadySource::new(Vec::from_slice(alloc, FIRST_PATH)?);
    let mut sink = MemorySink::new(alloc, step.max(1), fails);
    let ended = ended_of(rt, alloc, "serial", &mut source, &mut sink, &FreeGate)?;
    let front = match FIRST_TEXT.get(..taken) {
        Some(front) => sink.bytes() == front,
        None => false,
    };
    let kept = ended.book.trails.as_slice().len() == 1;
    Ok(ended.status == 5 && sink.calls() == call && front && kept)
}

#[test]
fn each_write_may_fail(rt: HostRuntime) -> Result<(), Fail> {
    for (step, last) in [(1, 70), (7, 10), (16, 5), (20, 4)] {
        let mut taken = 0;
        for call in 1..=last {
            assert!(rt; stops_writing(&rt, rt.alloc(), step, call, taken)?);
            taken = taken.saturating_add(step);
        }
    }
    Ok(())
}

const JOURNAL_TEXT: &[u8] = b"journal 1 entries 1 bytes 67 vector 1\n";

// Whether the first path by `journal` ends with this status over a sink that moves 16 bytes a call and fails at these:
// the sink has so many bytes of the line, and there is one disk, whose file has the bytes of which the line tells.
fn keeps_its_disk<R: Threads + Wait + Sync>(
    rt: &R,
    alloc: Global,
    fails: Vec<u64>,
    status: u8,
    taken: usize,
) -> Result<bool, AllocError> {
    let mut source = SteadySource::new(Vec::from_slice(alloc, FIRST_PATH)?);
    let mut sink = MemorySink::new(alloc, 16, fails);
    let ended = ended_of(rt, alloc, "journal", &mut source, &mut sink, &FreeGate)?;
    let front = match JOURNAL_TEXT.get(..taken) {
        Some(front) => sink.bytes() == front,
        None => false,
    };
    let kept = match ended.disks.as_slice() {
        [disk] => disk.bytes().len() == 67,
        _ => false,
    };
    Ok(ended.status == status && front && kept)
}

#[test]
fn journals_are_handed_out(rt: HostRuntime) -> Result<(), Fail> {
    let alloc = rt.alloc();
    assert!(rt; keeps_its_disk(&rt, alloc, Vec::new(alloc), 0, 38)?);
    assert!(rt; keeps_its_disk(&rt, alloc, vec![in alloc; 1]?, 5, 0)?);
    assert!(rt; keeps_its_disk(&rt, alloc, vec![in alloc; 3]?, 5, 32)?);
    Ok(())
}

// Whether the first path has no disks by this word.
fn has_no_disks<R: Threads + Wait + Sync>(
    rt: &R,
    alloc: Global,
    word: &str,
) -> Result<bool, AllocError> {
    let mut source = SteadySource::new(Vec::from_slice(alloc, FIRST_PATH)?);
    let mut sink = SteadySink::new(alloc);
    let ended = ended_of(rt, alloc, word, &mut source, &mut sink, &FreeGate)?;
    Ok(ended.status == 0 && ended.disks.is_empty())
}

#[test]
fn other_forms_have_no_disks(rt: HostRuntime) -> Result<(), Fail> {
    for word in ["serial", "run", "--version"] {
        assert!(rt; has_no_disks(&rt, rt.alloc(), word)?);
    }
    Ok(())
}
