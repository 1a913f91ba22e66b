// A disk in memory that fails at the calls listed, keeps each call, and makes the file that a crash may leave.
ghost use Rattle.std.specs.Prelude.{◌≡◌, ◌≤◌, [], ◌∷◌, ◌++◌, List, ℕ, length, take, reverse, is_ok, IfOk, OnOk, OnErr, IsErr, IsOkAnd, MatchResult, true, false};
ghost use Rattle.journal_disk.specs.declared.disk.Moment.{Moment};
ghost use Rattle.journal_disk.specs.declared.disk.Step.TheVariants.{Wrote};
ghost use Rattle.journal_disk.specs.Disk.{seen, moment, is_sound, synced, Holds, Shortens, Torn, Goes, HasCause, MayLeave, keeps_sound};
ghost use Rattle.journal_disk.specs.Memory.{memory_stands, moments_of, AfterStep};
ghost use Rattle.journal_disk.specs.Steady.{steady_bytes};

use crate::steady::write;
use crate::{Disk, DiskFault, Moment, SteadyDisk, Step};
use list_core::List;
use std::alloc::{AllocError, Global};

/// A disk in memory that fails at the calls with the numbers listed, counted from 1, and keeps all calls that may change
/// the file. A call that is to fail is made before it answers so.
#[derive(Drop)]
pub struct MemoryDisk {
    alloc: Global,
    bytes: Vec<u8>,
    moments: Vec<Moment>,
    sound: bool,
    fails: Vec<u64>,
    calls: u64,
    faults: u64,
    shortages: u64,
}

impl MemoryDisk {
    /// An empty file that fails at the calls with these numbers.
    pub fn new(alloc: Global, fails: Vec<u64>) -> MemoryDisk
        ensures { memory_stands result [] }
    {
        MemoryDisk {
            alloc,
            bytes: Vec::new(alloc),
            moments: Vec::new(alloc),
            sound: true,
            fails,
            calls: 0,
            faults: 0,
            shortages: 0,
        }
    }

    /// How many calls that may change the file were made.
    pub fn moments(&self) -> usize
        ensures { result ≡ length (moments_of self.now) }
    {
        self.moments.len()
    }

    /// A file that a crash after so many of these calls may leave: each write since the last sync is kept, or its range
    /// holds `fill`. A write without an entry in `keep` is kept. The disk itself goes on as if there had been none.
    pub fn after_crash(
        &self,
        moments: usize,
        keep: &[bool],
        fill: u8,
    ) -> Result<SteadyDisk, AllocError>
        requires { moments ≤ length (moments_of self.now) }
        ensures { IfOk result (λ disk. MayLeave (reverse (take moments (moments_of self.now))) (steady_bytes disk)) }
    {
        let mut image = Vec::new(self.alloc);
        let mut writes = 0;
        for moment in &self.moments[..moments] {
            let kept = keep.get(writes).copied().unwrap_or(true);
            advance(self.alloc, &mut image, moment, kept, fill)?;
            writes = match moment.step {
                Step::Settled => 0,
                Step::Wrote(_, _) => writes.saturating_add(1),
                Step::Cut(_) | Step::Unsettled => writes,
            };
        }
        Ok(SteadyDisk::with_bytes(image))
    }

    // Counts a call, and says whether it is to fail.
    fn is_failing(&mut self) -> bool
        ensures stands { (h : List Moment) → memory_stands self.old h → memory_stands self.new h }
        ensures bytes { self.new.bytes.items ≡ self.old.bytes.items }
        ensures sound { self.new.sound ≡ self.old.sound }
        ensures faults { self.new.faults ≡ self.old.faults }
        ensures shortages { self.new.shortages ≡ self.old.shortages }
    {
        self.calls = self.calls.saturating_add(1);
        self.fails.contains(&self.calls)
    }
}

// What a call leaves of a file that a crash may have left before it.
fn advance(
    alloc: Global,
    image: &mut Vec<u8>,
    moment: &Moment,
    kept: bool,
    fill: u8,
) -> Result<(), AllocError>
    ensures { OnOk result (AfterStep moment.now image.old.items image.new.items) }
{
    match moment.step {
        Step::Wrote(at, count) => {
            let piece = written(alloc, moment.seen.as_slice(), at, count, kept, fill)?;
            write(image, at as usize, &piece)
        }
        Step::Cut(to) => {
            image.truncate(to as usize);
            Ok(())
        }
        Step::Settled => {
            *image = moment.seen.as_slice().to_vec(alloc)?;
            Ok(())
        }
        Step::Unsettled => Ok(()),
    }
}

// So many bytes: those of the file from an offset on where it has them, else all `fill`.
fn written(
    alloc: Global,
    file: &[u8],
    at: u64,
    count: u64,
    kept: bool,
    fill: u8,
) -> Result<Vec<u8>, AllocError>
    ensures { IfOk result (λ piece. length piece.items ≡ count) }
{
    let (at, count) = (at as usize, count as usize);
    if kept && at <= file.len() && count <= file.len() - at {
        return file[at..at + count].to_vec(alloc);
    }
    let mut piece = Vec::new(alloc);
    piece.resize(count, fill)?;
    Ok(piece)
}

// Notes a call with the file after it, and puts that file in place.
fn put(
    alloc: Global,
    bytes: &mut Vec<u8>,
    moments: &mut Vec<Moment>,
    step: Step,
    next: Vec<u8>,
) -> Result<(), AllocError>
    ensures noted { OnOk result (moments.new.items ≡ moments.old.items ++ moment step next.items ∷ []) }
    ensures put { OnOk result (bytes.new.items ≡ next.items) }
    ensures none { OnErr result (moments.new.items ≡ moments.old.items) }
    ensures same { OnErr result (bytes.new.items ≡ bytes.old.items) }
{
    let seen = List::from_vec(next.to_vec(alloc)?);
    moments.push(Moment { step, seen })?;
    *bytes = next;
    Ok(())
}

// The file after a write.
fn with_piece(alloc: Global, bytes: &[u8], at: u64, piece: &[u8]) -> Result<Vec<u8>, AllocError>
    ensures { IfOk result (λ next. at ≤ length bytes.now → Holds bytes.now at piece.now next.items) }
{
    let mut next = bytes.to_vec(alloc)?;
    write(&mut next, at as usize, piece)?;
    Ok(next)
}

impl MemoryDisk {
    // Notes a call that made this file, where memory was found for it.
    fn keep(&mut self, step: Step, next: Result<Vec<u8>, AllocError>) -> Result<(), AllocError>
        ensures stands { (h : List Moment) → memory_stands self.old h → MatchResult result (λ _. (file : List ℕ) × ((memory_stands self.new (moment step file ∷ h)) × (IsOkAnd next (λ v. file ≡ v.items)))) (λ _. memory_stands self.new h) }
        ensures faults { self.new.faults ≡ self.old.faults }
        ensures shortages { self.new.shortages ≡ self.old.shortages }
    {
        put(self.alloc, &mut self.bytes, &mut self.moments, step, next?)?;
        if let Step::Unsettled = step {
            self.sound = false;
        }
        Ok(())
    }

    // Answers a call that made this file, or that found no memory for it.
    fn finish(
        &mut self,
        step: Step,
        next: Result<Vec<u8>, AllocError>,
        fails: bool,
    ) -> Result<(), DiskFault>
        ensures stands { (h : List Moment) → memory_stands self.old h → Goes (memory_stands self.new) step result h (λ file. IsOkAnd next (λ v. file ≡ v.items)) }
        ensures short { fails ≡ false → (h : List Moment) → memory_stands self.old h → OnErr result (memory_stands self.new h) }
        ensures fails { fails ≡ true → IsErr result }
        ensures cause { HasCause self.old.faults self.new.faults self.old.shortages self.new.shortages result }
    {
        match self.keep(step, next) {
            Ok(()) if fails => {
                self.faults = self.faults.saturating_add(1);
                Err(DiskFault::Failed)
            }
            Ok(()) => Ok(()),
            Err(_) => {
                self.shortages = self.shortages.saturating_add(1);
                Err(DiskFault::NoMemory)
            }
        }
    }
}

impl Disk for MemoryDisk {
    ghost stands = { memory_stands };

    ghost is_honest = { λ _. Unit {0} };

    ghost faults = { λ d. d.faults };

    ghost shortages = { λ d. d.shortages };

    fn read_at(&mut self, at: u64, into: &mut [u8]) -> Result<usize, DiskFault> {
        if self.is_failing() {
            self.faults = self.faults.saturating_add(1);
            return Err(DiskFault::Failed);
        }
        let at = at as usize;
        if at >= self.bytes.len() {
            return Ok(0);
        }
        let count = into.len().min(self.bytes.len() - at);
        into[..count].copy_from_slice(&self.bytes[at..at + count]);
        Ok(count)
    }

    fn write_at(&mut self, at: u64, piece: &[u8]) -> Result<(), DiskFault> {
        let fails = self.is_failing();
        let next = with_piece(self.alloc, &self.bytes, at, piece);
        self.finish(Step::Wrote(at, piece.len() as u64), next, fails)
    }

    fn cut(&mut self, to: u64) -> Result<(), DiskFault> {
        let fails = self.is_failing();
        let next = front(self.alloc, &self.bytes, to);
        self.finish(Step::Cut(to), next, fails)
    }

    fn sync(&mut self) -> Result<(), DiskFault> {
        let fails = self.is_failing();
        let next = self.bytes.to_vec(self.alloc);
        if fails {
            return self.finish(Step::Unsettled, next, true);
        }
        self.finish(sync_step(self.sound), next, false)
    }
}

// What a sync that answers `Ok` is, from whether none has failed.
fn sync_step(sound: bool) -> Step
    ensures { result ≡ synced true sound }
{
    if sound {
        Step::Settled
    } else {
        Step::Unsettled
    }
}

// The file cut to a length.
fn front(alloc: Global, bytes: &[u8], to: u64) -> Result<Vec<u8>, AllocError>
    ensures { IfOk result (λ next. to ≤ length bytes.now → Shortens to bytes.now next.items) }
{
    let to = (to as usize).min(bytes.len());
    bytes[..to].to_vec(alloc)
}
