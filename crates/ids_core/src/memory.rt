// Want of memory.

use std::alloc::{AllocError, AllocFailed};
use thiserror::Error;

/// There was no room: the one error whose cause no contract states.
#[derive(Clone, Copy, Debug, Error)]
#[error("memory ran out")]
pub struct NoMemory;

impl From<AllocError> for NoMemory {
    fn from(_: AllocError) -> Self {
        NoMemory
    }
}

impl<T: Drop> From<AllocFailed<T>> for NoMemory {
    fn from(_: AllocFailed<T>) -> Self {
        NoMemory
    }
}
