//! Why a line has no result.
use sig_base::OutOfMemory;
use std::alloc::{AllocError, AllocFailed};
use thiserror::Error;

/// Why a line has no result.
#[derive(Clone, Copy, Debug, Drop, Error)]
pub enum CaseError {
    /// The line names no call of the program, or its arguments are not those of the call.
    #[error("bad line")]
    BadLine,
    /// Out of memory.
    #[error("out of memory")]
    OutOfMemory,
}

impl From<OutOfMemory> for CaseError {
    fn from(_error: OutOfMemory) -> CaseError {
        CaseError::OutOfMemory
    }
}

impl From<AllocError> for CaseError {
    fn from(_error: AllocError) -> CaseError {
        CaseError::OutOfMemory
    }
}

impl<T: Drop> From<AllocFailed<T>> for CaseError {
    fn from(_error: AllocFailed<T>) -> CaseError {
        CaseError::OutOfMemory
    }
}
