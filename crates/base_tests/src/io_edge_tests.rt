// Streams that are interrupted or fail, and the gate that lets pass.
ghost use Rattle.std.specs.Prelude.{◌≤◌, IfOk};

use io_edge::{Failed, FreeGate, Gate, Sink, Source, StdSink, StdSource, WriteFault};
use std::io;
use std::io::{ErrorKind, Read, Write};

/// A reader and writer that is interrupted a number of times. Then it moves at most so many bytes a call,
/// or is broken.
#[derive(Drop)]
struct Fickle {
    interruptions: u32,
    moves: Option<usize>,
}

impl Fickle {
    // How many of so many bytes it moves now.
    fn moved(&mut self, offered: usize) -> io::Result<usize>
        ensures { IfOk result (λ count. count ≤ offered) }
    {
        if self.interruptions > 0 {
            self.interruptions -= 1;
            return Err(io::Error::from(ErrorKind::Interrupted));
        }
        match self.moves {
            Some(most) => Ok(offered.min(most)),
            None => Err(io::Error::from(ErrorKind::BrokenPipe)),
        }
    }
}

impl Read for Fickle {
    fn read(&mut self, buf: &mut [u8]) -> io::Result<usize> {
        self.moved(buf.len())
    }
}

impl Write for Fickle {
    fn write(&mut self, buf: &[u8]) -> io::Result<usize> {
        self.moved(buf.len())
    }

    fn flush(&mut self) -> io::Result<()> {
        Ok(())
    }
}

// How many bytes a read moves, or none where it failed.
fn read_once<S: Source>(source: &mut S) -> Option<usize>
    requires { S.may_read source.old }
{
    match source.read(&mut [0; 4]) {
        Ok(count) => Some(count),
        Err(Failed) => None,
    }
}

// How many bytes a write takes, or none where it failed.
fn write_once<W: Sink>(sink: &mut W) -> Option<usize>
    requires { W.may_write sink.old }
{
    match sink.write(b"xyz") {
        Ok(count) => Some(count),
        Err(WriteFault::Failed) => None,
        Err(WriteFault::NoMemory) => Some(0),
    }
}

#[test]
fn streams_are_interrupted_a_thousand_times_at_most(rt: HostRuntime) {
    for (interruptions, moves, want) in [
        (0, Some(1), Some(1)),
        (1_000, Some(1), Some(1)),
        (1_001, Some(1), None),
        (0, None, None),
    ] {
        let mut source = StdSource::new(Fickle {
            interruptions,
            moves,
        });
        assert!(rt;
            read_once(&mut source) == want,
            "a read after {interruptions}"
        );
        let mut sink = StdSink::new(Fickle {
            interruptions,
            moves,
        });
        assert!(rt;
            write_once(&mut sink) == want,
            "a write after {interruptions}"
        );
    }
}

#[test]
fn a_write_that_takes_nothing_fails(rt: HostRuntime) {
    let interruptions = 0;
    let moves = Some(0);
    let mut sink = StdSink::new(Fickle {
        interruptions,
        moves,
    });
    assert!(rt; write_once(&mut sink).is_none());
}

fn pass_through<G: Gate>(gate: &G) {
    let ticket = gate.before(1, 1);
    drop(gate.after(ticket));
}

#[test]
fn a_free_gate_lets_pass() {
    pass_through(&FreeGate);
    pass_through(&&FreeGate);
}
