use std::alloc::{AllocError, AllocFailed};
use thiserror::Error;

/// The answer of a call that found no memory.
///
/// It is always a free answer: no contract ties it to a refused growth, so tests with ample memory
/// show that a call can succeed.
#[derive(Clone, Copy, Debug, PartialEq, Eq, Error)]
#[error("out of memory")]
pub struct Memory;

impl From<AllocError> for Memory {
    fn from(_error: AllocError) -> Memory {
        Memory
    }
}

impl<T: Drop> From<AllocFailed<T>> for Memory {
    fn from(_error: AllocFailed<T>) -> Memory {
        Memory
    }
}
