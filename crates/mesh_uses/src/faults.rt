//! The errors of the uses.
use mesh::{FinishError, NewFault, OpenError, Refusal};
use std::alloc::{AllocError, AllocFailed};
use thiserror::Error;

/// The reason why a use failed.
#[derive(Debug, Drop, Error)]
pub(crate) enum UseError {
    /// A call of the heap was refused.
    #[error("{0}")]
    Refused(#[from] Refusal),
    /// An allocation failed.
    #[error("out of memory")]
    Memory,
    /// Seats and journal don't form a history.
    #[error("{0}")]
    Finish(#[from] FinishError),
    /// A call returned another answer than expected.
    #[error("another answer: {0}")]
    Answer(&'static str),
}

impl From<AllocError> for UseError {
    fn from(_refused: AllocError) -> UseError {
        UseError::Memory
    }
}

impl<T: Drop> From<AllocFailed<T>> for UseError {
    fn from(_refused: AllocFailed<T>) -> UseError {
        UseError::Memory
    }
}

impl From<NewFault> for UseError {
    fn from(fault: NewFault) -> UseError {
        match fault {
            NewFault::Refused(refusal) => UseError::Refused(refusal),
            NewFault::Memory => UseError::Memory,
        }
    }
}

impl From<OpenError> for UseError {
    fn from(_refused: OpenError) -> UseError {
        UseError::Memory
    }
}
