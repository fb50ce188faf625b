// Want of memory, as an answer.

use std::alloc::{AllocError, AllocFailed};
use thiserror::Error;

/// Memory ran out. What the call was made on is as it was, unless the call says otherwise.
///
/// Own.
#[derive(Clone, Copy, Debug, PartialEq, Eq, Error)]
#[error("out of memory")]
pub struct NoMemory;

impl From<AllocError> for NoMemory {
    fn from(_: AllocError) -> NoMemory {
        NoMemory
    }
}

impl<T: Drop> From<AllocFailed<T>> for NoMemory {
    fn from(_: AllocFailed<T>) -> NoMemory {
        NoMemory
    }
}
