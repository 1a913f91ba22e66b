// A source and a sink in memory that move a few bytes a call and fail at the calls listed.
ghost use Rattle.std.specs.Prelude.{⊤, ◌≡◌, ◌↔◌, ◌<◌, ◌≤◌, ◌+◌, ◌++◌, [], List, ℕ, Some, length, take, drop, min, IfOk, OnOk, OnErr, IsErr, Contains};

use super::{Failed, Sink, Source, WriteFault};
use std::alloc::Global;
use std::marker::Model;

/// Copies `count` bytes that stand at `at` to the front of `into`.
pub(super) fn copy_part(from: &[u8], at: usize, into: &mut [u8], count: usize)
    requires from { at + count ≤ length from.now }
    requires into { count ≤ length into.old }
    ensures { take count into.new ≡ take count (drop at from.now) }
{
    into[..count].copy_from_slice(&from[at..at + count]);
}

/// A source over the bytes given that gives at most `step` of them a call and fails at the calls
/// whose numbers, from 1, are listed.
#[derive(Drop)]
pub struct MemorySource {
    bytes: Vec<u8>,
    at: usize,
    step: usize,
    fails: Vec<u64>,
    calls: u64,
    faults: u64,
}

impl Model for MemorySource {
    ghost use Rattle.std.specs.Prelude.{◌<◌, ◌≤◌, drop, vec_len};
    ghost use Rattle.io_edge.specs.Stores.{Supply};

    ghost Value = { Supply };

    ghost view = { λ s. record { left = drop s.at s.bytes.items; step = s.step; fails = s.fails.items; calls = s.calls; faults = s.faults } };

    ghost invariant = { λ s. (s.at ≤ vec_len s.bytes) × (0 < s.step) };
}

impl MemorySource {
    ghost use Rattle.io_edge.specs.Stores.{new_supply};

    /// All the bytes are left, and no call was made. `step` is at least 1.
    pub fn new(bytes: Vec<u8>, step: usize, fails: Vec<u64>) -> Self
        requires { 0 < step }
        ensures { result ≡ new_supply bytes.items step fails.items }
    {
        MemorySource {
            bytes,
            at: 0,
            step,
            fails,
            calls: 0,
            faults: 0,
        }
    }

    /// How many reads were made, those that failed among them.
    pub fn calls(&self) -> u64
        ensures { result ≡ self.now.calls }
    {
        self.calls
    }
}

impl Source for MemorySource {
    ghost use Rattle.io_edge.specs.Stores.{one_more, left_after, read_failed};

    ghost left = { λ s. Some s.left };

    ghost faults = { λ s. s.faults };

    ghost may_read = { λ _. ⊤ };

    /// Fails exactly at the calls listed; else as many bytes as a step, what is left and the room
    /// allow.
    fn read(&mut self, into: &mut [u8]) -> Result<usize, Failed>
        ensures fails { IsErr result ↔ Contains self.old.fails (one_more self.old.calls) }
        ensures count { IfOk result (λ n. n ≡ min (min (length self.old.left) (length into.old)) self.old.step) }
        ensures bytes { IfOk result (λ n. self.old.left ≡ take n into.new ++ self.new.left) }
        ensures end { result ≡ Ok 0 → 0 < length into.old → self.old.left ≡ [] }
        ensures moved { IfOk result (λ n. self.new ≡ left_after n self.old) }
        ensures failed { OnErr result (self.new ≡ read_failed self.old) }
    {
        self.calls = self.calls.saturating_add(1);
        if self.fails.contains(&self.calls) {
            self.faults = self.faults.saturating_add(1);
            return Err(Failed);
        }
        let count = (self.bytes.len() - self.at).min(into.len()).min(self.step);
        copy_part(&self.bytes, self.at, into, count);
        self.at += count;
        Ok(count)
    }
}

/// A sink that takes at most `step` bytes a call, keeps them, and fails at the calls whose numbers,
/// from 1, are listed.
#[derive(Drop)]
pub struct MemorySink {
    bytes: Vec<u8>,
    step: usize,
    fails: Vec<u64>,
    calls: u64,
    faults: u64,
}

impl Model for MemorySink {
    ghost use Rattle.std.specs.Prelude.{◌<◌};
    ghost use Rattle.io_edge.specs.Stores.{Store};

    ghost Value = { Store };

    ghost view = { λ s. record { taken = s.bytes.items; step = s.step; fails = s.fails.items; calls = s.calls; faults = s.faults } };

    ghost invariant = { λ s. 0 < s.step };
}

impl MemorySink {
    ghost use Rattle.io_edge.specs.Stores.{new_store};

    /// Nothing was taken, and no call was made. `step` is at least 1.
    pub fn new(alloc: Global, step: usize, fails: Vec<u64>) -> Self
        requires { 0 < step }
        ensures { result ≡ new_store step fails.items }
    {
        MemorySink {
            bytes: Vec::new(alloc),
            step,
            fails,
            calls: 0,
            faults: 0,
        }
    }

    /// The bytes taken, in their order.
    pub fn bytes(&self) -> &[u8]
        ensures { result.now ≡ self.now.taken }
    {
        &self.bytes
    }

    /// How many writes were made, those that failed among them.
    pub fn calls(&self) -> u64
        ensures { result ≡ self.now.calls }
    {
        self.calls
    }
}

impl Sink for MemorySink {
    ghost use Rattle.io_edge.specs.Stores.{one_more, took, write_failed, found_no_room};

    ghost taken = { λ s. Some s.taken };

    ghost faults = { λ s. s.faults };

    ghost may_write = { λ _. ⊤ };

    /// Fails exactly at the calls listed; else as many bytes as a step and the piece allow, or none
    /// where there is no memory for them.
    fn write(&mut self, piece: &[u8]) -> Result<usize, WriteFault>
        ensures fails { (result ≡ Err WriteFault.Failed) ↔ Contains self.old.fails (one_more self.old.calls) }
        ensures count { IfOk result (λ n. n ≡ min (length piece.now) self.old.step) }
        ensures some { 0 < length piece.now → IfOk result (λ n. 0 < n) }
        ensures took { IfOk result (λ n. self.new ≡ took (take n piece.now) self.old) }
        ensures failed { result ≡ Err WriteFault.Failed → self.new ≡ write_failed self.old }
        ensures no_room { result ≡ Err WriteFault.NoMemory → self.new ≡ found_no_room self.old }
    {
        self.calls = self.calls.saturating_add(1);
        if self.fails.contains(&self.calls) {
            self.faults = self.faults.saturating_add(1);
            return Err(WriteFault::Failed);
        }
        let (front, _) = piece.split_at(piece.len().min(self.step));
        match self.bytes.extend_from_slice(front) {
            Ok(()) => Ok(front.len()),
            Err(_) => Err(WriteFault::NoMemory),
        }
    }
}
