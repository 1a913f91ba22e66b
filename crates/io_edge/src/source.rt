ghost use Rattle.std.specs.Prelude.{◌≡◌, ◌<◌, ◌≤◌, [], List, ℕ, Option, length, take, IfOk, IfSome, OnOk, OnErr};
ghost use Rattle.io_edge.specs.Streams.{HasRisen, puts_back};

use thiserror::Error;

/// The one way in which a read fails. No byte was taken.
#[derive(Clone, Copy, Debug, Error)]
#[error("a read failed")]
pub struct Failed;

/// Where bytes are read from. A source may tell which bytes it has left, and counts its faults. After a read that failed,
/// and behind the end, no caller may read on: nothing promises that it may.
pub trait Source {
    /// The bytes that are left, where the source tells them.
    ghost left: { Self → Option (List ℕ) };

    /// How often it has failed. A call that doesn't fail leaves this count as it was.
    ghost faults: { Self → ℕ };

    /// That it may be read. Where a read took a byte, the next one may be made.
    ghost may_read: { Self → Type 0 };

    /// Puts bytes in front of `into` and answers how many. 0 for a nonempty `into` is the end.
    fn read(&mut self, into: &mut [u8]) -> Result<usize, Failed>
        requires { may_read self.old }
        ensures count { IfOk result (λ n. n ≤ length into.old) }
        ensures bytes { IfOk result (λ n. left self.old ≡ puts_back (take n into.new) (left self.new)) }
        ensures end { result ≡ Ok 0 → 0 < length into.old → IfSome (left self.old) (λ bytes. bytes ≡ []) }
        ensures quiet { OnOk result (faults self.new ≡ faults self.old) }
        ensures goes_on { IfOk result (λ n. 0 < n → may_read self.new) }

        ensures risen { OnErr result (HasRisen (faults self.old) (faults self.new)) }
        ensures kept { OnErr result (left self.new ≡ left self.old) };
}
