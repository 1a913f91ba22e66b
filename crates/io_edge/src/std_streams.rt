// The readers and writers of the standard library as a source and a sink, which tell no bytes.
ghost use Rattle.std.specs.Prelude.{⊤, ◌≡◌, None};

use super::{Failed, Sink, Source, WriteFault};
use std::io::{ErrorKind, Read, Write};
use std::marker::Model;

/// How often a call is made while it is interrupted: once, and at most 1,000 times again.
const TRIES: u32 = 1_001;

/// A source over a reader, seen as its count of faults. It tells no bytes.
#[derive(Drop)]
pub struct StdSource<R> {
    reader: R,
    faults: u64,
}

impl<R> Model for StdSource<R> {
    ghost use Rattle.std.specs.Prelude.{ℕ};

    ghost Value = { ℕ };

    ghost view = { λ s. s.faults };
}

impl<R: Read> StdSource<R> {
    /// No fault was met.
    pub fn new(reader: R) -> Self
        ensures { result ≡ 0 }
    {
        StdSource { reader, faults: 0 }
    }
}

impl<R: Read> Source for StdSource<R> {
    ghost left = { λ _. None };

    ghost faults = { λ count. count };

    ghost may_read = { λ _. ⊤ };

    /// An interrupted read is made again, at most 1,000 times in a row, and is then a fault.
    fn read(&mut self, into: &mut [u8]) -> Result<usize, Failed> {
        'tries: for _ in 0..TRIES {
            match self.reader.read(into) {
                Ok(count) => return Ok(count),
                Err(e) => {
                    if e.kind() != ErrorKind::Interrupted {
                        break 'tries;
                    }
                }
            }
        }
        self.faults = self.faults.saturating_add(1);
        Err(Failed)
    }
}

/// A sink over a writer, seen as its count of faults. It tells no bytes and keeps none back.
#[derive(Drop)]
pub struct StdSink<W> {
    writer: W,
    faults: u64,
}

impl<W> Model for StdSink<W> {
    ghost use Rattle.std.specs.Prelude.{ℕ};

    ghost Value = { ℕ };

    ghost view = { λ s. s.faults };
}

impl<W: Write> StdSink<W> {
    /// No fault was met.
    pub fn new(writer: W) -> Self
        ensures { result ≡ 0 }
    {
        StdSink { writer, faults: 0 }
    }
}

impl<W: Write> Sink for StdSink<W> {
    ghost taken = { λ _. None };

    ghost faults = { λ count. count };

    ghost may_write = { λ _. ⊤ };

    /// An interrupted write is made again, at most 1,000 times in a row, and is then a fault. So is
    /// a write that takes nothing of a nonempty piece.
    fn write(&mut self, piece: &[u8]) -> Result<usize, WriteFault> {
        if piece.is_empty() {
            return Ok(0);
        }
        'tries: for _ in 0..TRIES {
            match self.writer.write(piece) {
                Ok(0) => break 'tries,
                Ok(count) => return Ok(count),
                Err(e) => {
                    if e.kind() != ErrorKind::Interrupted {
                        break 'tries;
                    }
                }
            }
        }
        self.faults = self.faults.saturating_add(1);
        Err(WriteFault::Failed)
    }
}
