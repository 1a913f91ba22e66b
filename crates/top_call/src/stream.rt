// Reads an input to its end or past the limits of a script, and writes a text.
ghost use Rattle.std.specs.Prelude.{◌≡◌, ◌≢◌, ◌↔◌, [], false, IsTrue, IfOk, IfSome, OnOk, OnErr};
ghost use Rattle.io_edge.specs.Streams.{HasRisen, TookFront, LeftBehind, puts_back, puts_behind};
ghost use Rattle.script_core.specs.Limits.{PassesLimits, IsWithinBut};
ghost use Rattle.top_call.specs.declared.stream.ReadFault.TheVariants.{NoMemory, Failed as ReadFailed};

use ids_core::NoMemory as OutOfMemory;
use io_edge::{Failed, Sink, Source, WriteFault};
use script_core::LineCount;
use std::alloc::{AllocError, Global};

/// The most bytes that one read takes.
pub const PIECE: usize = 4096;

/// The bytes that were read of an input.
#[derive(Drop)]
pub struct Input {
    pub bytes: Vec<u8>,
    /// Whether the bytes pass the limits of a script. Then more may be left of the input.
    pub past_limits: bool,
}

/// Why an input was not read.
#[derive(Clone, Copy)]
pub enum ReadFault {
    /// A read failed.
    Failed,
    /// There is no memory for the bytes.
    NoMemory,
}

impl From<AllocError> for ReadFault {
    ghost from_gives = { λ _ e. e ≡ NoMemory };

    fn from(_: AllocError) -> Self {
        ReadFault::NoMemory
    }
}

impl From<OutOfMemory> for ReadFault {
    ghost from_gives = { λ _ e. e ≡ NoMemory };

    fn from(_: OutOfMemory) -> Self {
        ReadFault::NoMemory
    }
}

impl From<Failed> for ReadFault {
    ghost from_gives = { λ _ e. e ≡ ReadFailed };

    fn from(_: Failed) -> Self {
        ReadFault::Failed
    }
}

#[tactic(auto, using(crate::proofs::Pieces::back_twice))]
/// Reads until the end, or until the bytes pass the limits of a script. Each read takes a byte or
/// is the last. After an `Err` some bytes are gone. No read is made after one that failed, and none behind the end:
/// nothing says that it may (`Source::may_read`).
pub fn read_input<S: Source>(alloc: Global, source: &mut S) -> Result<Input, ReadFault>
    requires { S.may_read source.old }
    ensures taken { IfOk result (λ input. S.left source.old ≡ puts_back input.bytes.items (S.left source.new)) }
    ensures limits { IfOk result (λ input. IsTrue input.past_limits ↔ PassesLimits input.bytes.items) }
    ensures whole { IfOk result (λ input. input.past_limits ≡ false → IfSome (S.left source.new) (λ rest. rest ≡ [])) }
    ensures in_time { IfOk result (λ input. IsWithinBut PIECE input.bytes.items) }

    ensures gone { OnErr result (LeftBehind (S.left source.old) (S.left source.new)) }
    ensures failed { result ≡ Err ReadFault.Failed → HasRisen (S.faults source.old) (S.faults source.new) }
    ensures quiet { result ≢ Err ReadFault.Failed → S.faults source.new ≡ S.faults source.old }
{
    let mut bytes = Vec::new(alloc);
    let mut count = LineCount::new();
    let mut piece = [0; PIECE];
    for turn in 0..u64::MAX {
        let taken = source.read(&mut piece)?;
        if taken == 0 {
            break;
        }
        let (front, _) = piece.split_at(taken);
        bytes.extend_from_slice(front)?;
        count = count.after(front);
        if count.is_past() {
            return Ok(Input {
                bytes,
                past_limits: true,
            });
        }
    }
    Ok(Input {
        bytes,
        past_limits: false,
    })
}

/// Writes the whole text, offering all that is left of it in each write. After an `Err` a front of it is written. No
/// write is made after one that failed: nothing says that it may (`Sink::may_write`).
#[tactic(auto, using(crate::proofs::Pieces::behind_twice))]
pub fn write_all<W: Sink>(sink: &mut W, text: &[u8]) -> Result<(), WriteFault>
    requires { W.may_write sink.old }
    ensures all { OnOk result (W.taken sink.new ≡ puts_behind text.now (W.taken sink.old)) }
    ensures front { OnErr result (TookFront text.now (W.taken sink.old) (W.taken sink.new)) }
    ensures failed { result ≡ Err WriteFault.Failed → HasRisen (W.faults sink.old) (W.faults sink.new) }
    ensures quiet { result ≢ Err WriteFault.Failed → W.faults sink.new ≡ W.faults sink.old }
{
    let mut done = 0;
    while done < text.len() {
        let (_, rest) = text.split_at(done);
        done += sink.write(rest)?;
    }
    Ok(())
}
