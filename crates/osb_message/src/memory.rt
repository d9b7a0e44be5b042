//! Want of memory, the one refusal that no caller can rule out.
use std::alloc::{AllocError, AllocFailed};
use thiserror::Error;

/// An allocation failed during the call, which has changed nothing that its caller can see (this
/// project's choice).
#[derive(Clone, Copy, Debug, PartialEq, Eq, Error)]
#[error("Memory")]
pub struct Memory;

impl From<AllocError> for Memory {
    fn from(_refused: AllocError) -> Memory {
        Memory
    }
}

impl<T: Drop> From<AllocFailed<T>> for Memory {
    fn from(_refused: AllocFailed<T>) -> Memory {
        Memory
    }
}
