use std::alloc::AllocError;
use thiserror::Error;

/// Memory was not to be had. Any call that takes an allocator may answer so.
#[derive(Clone, Copy, Debug, PartialEq, Eq, Error)]
#[error("no memory")]
pub struct NoMemory;

impl From<AllocError> for NoMemory {
    fn from(_e: AllocError) -> NoMemory {
        NoMemory
    }
}
