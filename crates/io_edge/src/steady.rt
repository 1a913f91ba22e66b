// A source and a sink in memory that never fail.
ghost use Rattle.std.specs.Prelude.{⊤, ◌≡◌, ◌≢◌, ◌++◌, [], List, ℕ, Some, length, take, min, IfOk, OnOk, OnErr};

use super::memory::copy_part;
use super::{Failed, Sink, Source, WriteFault};
use std::alloc::Global;
use std::marker::Model;

/// A source over the bytes given, seen as those that are left. It never fails.
#[derive(Drop)]
pub struct SteadySource {
    bytes: Vec<u8>,
    at: usize,
}

impl Model for SteadySource {
    ghost use Rattle.std.specs.Prelude.{◌≤◌, List, ℕ, drop, vec_len};

    ghost Value = { List ℕ };

    ghost view = { λ s. drop s.at s.bytes.items };

    ghost invariant = { λ s. s.at ≤ vec_len s.bytes };
}

impl SteadySource {
    /// All the bytes are left.
    pub fn new(bytes: Vec<u8>) -> Self
        ensures { result ≡ bytes.items }
    {
        SteadySource { bytes, at: 0 }
    }
}

impl Source for SteadySource {
    ghost left = { λ s. Some s };

    ghost faults = { λ _. 0 };

    ghost may_read = { λ _. ⊤ };

    /// As many bytes as are left and have room.
    fn read(&mut self, into: &mut [u8]) -> Result<usize, Failed>
        ensures steady { result ≡ Ok (min (length self.old) (length into.old)) }
        ensures bytes { IfOk result (λ n. self.old ≡ take n into.new ++ self.new) }
    {
        let count = (self.bytes.len() - self.at).min(into.len());
        copy_part(&self.bytes, self.at, into, count);
        self.at += count;
        Ok(count)
    }
}

/// A sink that keeps what it took, seen as those bytes. It never answers `Failed`.
#[derive(Drop)]
pub struct SteadySink {
    bytes: Vec<u8>,
}

impl Model for SteadySink {
    ghost use Rattle.std.specs.Prelude.{List, ℕ};

    ghost Value = { List ℕ };

    ghost view = { λ s. s.bytes.items };
}

impl SteadySink {
    /// Nothing was taken.
    pub fn new(alloc: Global) -> Self
        ensures { result ≡ [] }
    {
        SteadySink {
            bytes: Vec::new(alloc),
        }
    }

    /// The bytes taken, in their order.
    pub fn bytes(&self) -> &[u8]
        ensures { result.now ≡ self.now }
    {
        &self.bytes
    }
}

impl Sink for SteadySink {
    ghost taken = { λ s. Some s };

    ghost faults = { λ _. 0 };

    ghost may_write = { λ _. ⊤ };

    /// Takes the whole piece, or nothing where there is no memory for it.
    fn write(&mut self, piece: &[u8]) -> Result<usize, WriteFault>
        ensures whole { IfOk result (λ n. n ≡ length piece.now) }
        ensures bytes { OnOk result (self.new ≡ self.old ++ piece.now) }
        ensures steady { result ≢ Err WriteFault.Failed }
        ensures kept { OnErr result (self.new ≡ self.old) }
    {
        match self.bytes.extend_from_slice(piece) {
            Ok(()) => Ok(piece.len()),
            Err(_) => Err(WriteFault::NoMemory),
        }
    }
}
