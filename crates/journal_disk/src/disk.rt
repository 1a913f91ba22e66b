// One file on a disk, and what its calls and a crash leave of it.
ghost use Rattle.std.specs.Prelude.{◌≡◌, ◌≤◌, List, ℕ, length, is_ok, IfOk};
ghost use Rattle.journal_disk.specs.declared.disk.DiskFault.TheVariants.{NoMemory};
ghost use Rattle.journal_disk.specs.declared.disk.Step.TheVariants.{Wrote, Cut};
ghost use Rattle.journal_disk.specs.Disk.{seen, moment, is_sound, synced, IsPart, Holds, Shortens, Goes, HasCause};

use list_core::List;
use std::alloc::{AllocError, AllocFailed};

/// Why a call on a disk failed.
#[derive(Clone, Copy, Debug, PartialEq, Eq)]
pub enum DiskFault {
    Failed,
    NoMemory,
}

impl From<AllocError> for DiskFault {
    ghost from_gives = { λ _ e. e ≡ NoMemory };

    fn from(_: AllocError) -> Self {
        DiskFault::NoMemory
    }
}

impl<T: Drop> From<AllocFailed<T>> for DiskFault {
    ghost from_gives = { λ _ e. e ≡ NoMemory };

    fn from(_: AllocFailed<T>) -> Self {
        DiskFault::NoMemory
    }
}

/// What a call did that may change a file or what a crash leaves of it: a write at an offset of so many bytes, a cut to
/// a length, a sync after which a crash leaves what a read gives, or one after which nothing more is known.
#[derive(Clone, Copy, Drop)]
pub enum Step {
    Wrote(u64, u64),
    Cut(u64),
    Settled,
    Unsettled,
}

/// Such a call, and what a read gives after it.
#[derive(Drop)]
pub struct Moment {
    pub step: Step,
    pub seen: List<u8>,
}

/// One file. Contracts see the histories of calls that it stands for, the newest call first, and two counts: how often
/// a call failed, and how often one found no memory.
pub trait Disk: Drop {
    ghost use Rattle.std.specs.Prelude.{List, ℕ};
    ghost use Rattle.journal_disk.specs.declared.disk.Moment.{Moment};

    // Which histories it stands for.
    ghost stands: { Self → List Moment → Type 0 };

    // Each read so far gave what stood there. Over a file of the operating system this is a premise of other clauses.
    ghost is_honest: { Self → Type 0 };

    // How many calls failed.
    ghost faults: { Self → ℕ };

    // How many calls found no memory.
    ghost shortages: { Self → ℕ };

    /// Reads bytes from an offset on and tells how many, which may be fewer than asked for. With room for some it tells
    /// 0 only at or past the end.
    fn read_at(&mut self, at: u64, into: &mut [u8]) -> Result<usize, DiskFault>
        ensures count { IfOk result (λ n. n ≤ length into.old) }
        ensures bytes { IfOk result (λ n. is_honest self.new → (h : List Moment) → stands self.old h → IsPart (seen h) at n into.new) }
        ensures stands { (h : List Moment) → stands self.old h → stands self.new h }
        ensures honest { is_honest self.new → is_honest self.old }
        ensures cause { HasCause (faults self.old) (faults self.new) (shortages self.old) (shortages self.new) result };

    /// Writes bytes over what is there and past the end. Where the file ends before the offset, nothing is said of its
    /// bytes afterwards. One that failed may have written.
    fn write_at(&mut self, at: u64, piece: &[u8]) -> Result<(), DiskFault>
        ensures stands { (h : List Moment) → stands self.old h → Goes (stands self.new) (Wrote at (length piece.now)) result h (λ file. at ≤ length (seen h) → Holds (seen h) at piece.now file) }
        ensures honest { is_honest self.new → is_honest self.old }
        ensures cause { HasCause (faults self.old) (faults self.new) (shortages self.old) (shortages self.new) result };

    /// Cuts the file to a length. Where it ends before that, nothing is said of its bytes afterwards. One that failed may
    /// have cut.
    fn cut(&mut self, to: u64) -> Result<(), DiskFault>
        ensures stands { (h : List Moment) → stands self.old h → Goes (stands self.new) (Cut to) result h (λ file. to ≤ length (seen h) → Shortens to (seen h) file) }
        ensures honest { is_honest self.new → is_honest self.old }
        ensures cause { HasCause (faults self.old) (faults self.new) (shortages self.old) (shortages self.new) result };

    /// Puts on the disk what was written. Once one has failed, no later one settles anything: the file has to be opened
    /// anew.
    fn sync(&mut self) -> Result<(), DiskFault>
        ensures stands { (h : List Moment) → stands self.old h → Goes (stands self.new) (synced (is_ok result) (is_sound h)) result h (λ file. file ≡ seen h) }
        ensures honest { is_honest self.new → is_honest self.old }
        ensures cause { HasCause (faults self.old) (faults self.new) (shortages self.old) (shortages self.new) result };
}
