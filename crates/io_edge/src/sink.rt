ghost use Rattle.std.specs.Prelude.{◌≡◌, ◌≢◌, ◌<◌, ◌≤◌, List, ℕ, Option, length, take, IfOk, OnOk, OnErr};
ghost use Rattle.io_edge.specs.Streams.{HasRisen, puts_behind};

use thiserror::Error;

/// Why a write took nothing.
#[derive(Clone, Copy, Debug, Error)]
pub enum WriteFault {
    /// The outside failed.
    #[error("a write failed")]
    Failed,
    /// There is no memory to keep the bytes in.
    #[error("memory ran out")]
    NoMemory,
}

/// Where bytes are written to. A sink may tell which bytes it took, and counts its faults. After a write that took nothing
/// for a fault no caller may write on: nothing promises that it may.
pub trait Sink {
    /// The bytes taken, where the sink tells them.
    ghost taken: { Self → Option (List ℕ) };

    /// How often it has failed. A call that doesn't answer `Failed` leaves this count as it was.
    ghost faults: { Self → ℕ };

    /// That it may be written to. After a write without a fault the next one may be made.
    ghost may_write: { Self → Type 0 };

    /// Takes bytes from the front of `piece`, of a nonempty one at least one, and answers how many.
    fn write(&mut self, piece: &[u8]) -> Result<usize, WriteFault>
        requires { may_write self.old }
        ensures count { IfOk result (λ n. n ≤ length piece.now) }
        ensures some { 0 < length piece.now → IfOk result (λ n. 0 < n) }
        ensures bytes { IfOk result (λ n. taken self.new ≡ puts_behind (take n piece.now) (taken self.old)) }
        ensures quiet { result ≢ Err WriteFault.Failed → faults self.new ≡ faults self.old }
        ensures goes_on { OnOk result (may_write self.new) }

        ensures risen { result ≡ Err WriteFault.Failed → HasRisen (faults self.old) (faults self.new) }
        ensures kept { OnErr result (taken self.new ≡ taken self.old) };
}
