//! One file on a disk, as a journal sees it: what a read gives now, and what a crash may leave. With a disk in memory
//! that never fails, and one that fails where it is told to and crashes.
#![tactic(auto)]

mod disk;
mod memory;
mod runs;
mod steady;

pub use disk::{Disk, DiskFault, Moment, Step};
pub use memory::MemoryDisk;
pub use runs::{read_all, settle, shorten, store};
pub use steady::SteadyDisk;
