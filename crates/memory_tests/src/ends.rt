//! The ways in which a case can end.
use mesh_search::SearchError;
use mesh_shared::{FinishError, OpenError};
use std::alloc::AllocError;
use thiserror::Error;

/// The number of calls that were retried because an allocation failed, or the reason why the case ended early.
pub(crate) type End = Result<u32, CaseError>;

/// The reason why a case ended early.
#[derive(Clone, Copy, Debug, Error)]
pub(crate) enum CaseError {
    /// A result that contradicts the contracts.
    #[error("WRONG: {0}")]
    Wrong(&'static str),
    /// An allocation failed in a call that isn't retried.
    #[error("out of memory")]
    Memory,
    /// A thread couldn't be started.
    #[error("thread fault")]
    Thread,
}

impl From<AllocError> for CaseError {
    fn from(_refused: AllocError) -> CaseError {
        CaseError::Memory
    }
}

impl From<OpenError> for CaseError {
    fn from(_refused: OpenError) -> CaseError {
        CaseError::Memory
    }
}

impl From<FinishError> for CaseError {
    fn from(error: FinishError) -> CaseError {
        match error {
            FinishError::Memory => CaseError::Memory,
            _ => CaseError::Wrong("seats and journal make no history"),
        }
    }
}

impl From<SearchError> for CaseError {
    fn from(error: SearchError) -> CaseError {
        match error {
            SearchError::Memory => CaseError::Memory,
            SearchError::Thread => CaseError::Thread,
        }
    }
}

/// Returns `Ok` if `holds` is true, and otherwise the error `Wrong` with these words.
pub(crate) fn expect(holds: bool, what: &'static str) -> Result<(), CaseError> {
    if holds {
        Ok(())
    } else {
        Err(CaseError::Wrong(what))
    }
}
