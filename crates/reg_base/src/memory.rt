//! Want of memory, the one answer that no contract explains.
use std::alloc::{AllocError, AllocFailed};

/// The allocator had no room. What stands after it is said by each call that answers it.
#[derive(Clone, Copy, Debug, PartialEq, Eq)]
pub struct Memory;

impl From<AllocError> for Memory {
    fn from(_refused: AllocError) -> Memory {
        Memory
    }
}

impl<T: Drop> From<AllocFailed<T>> for Memory {
    fn from(_refused: AllocFailed<T>) -> Memory {
        Memory
    }
}
