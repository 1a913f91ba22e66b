// Why two files were not opened as the journal of a centre.

use journal_disk::Disk;
use journal_pair::PairFault;

/// Why two disks were not opened as the journal of a centre.
#[derive(Clone, Copy, Debug, PartialEq, Eq)]
pub enum CentreFault {
    /// Of its two files, or want of memory (`PairFault::NoMemory`).
    Pair(PairFault),
    /// The checkpoint is not one of such a centre.
    BadCheckpoint,
    /// The item with this number behind the checkpoint, counted from 0, is no ask that such a centre would have kept.
    BadAsk(u64),
}

/// Two disks on which no journal of a centre was made or opened, and why.
#[derive(Drop)]
pub struct Unopened<D: Disk> {
    pub why: CentreFault,
    pub first: D,
    pub second: D,
}
