//! The reasons why a search returns no result.
ghost use Rattle.std.specs.Prelude.{◌≡◌};
ghost use Rattle.mesh_search.specs.declared.faults.SearchError.{SearchError};

use std::alloc::AllocError;
use std::thread::SpawnError;
use thiserror::Error;

/// The reason why a search returns no result.
#[derive(Debug, Drop, PartialEq, Eq, Error)]
pub enum SearchError {
    /// An allocation failed.
    #[error("out of memory")]
    Memory,
    /// A thread couldn't be started, or a thread returned the result of another part of a round.
    #[error("thread fault")]
    Thread,
}

impl From<AllocError> for SearchError {
    ghost from_gives = { λ _ error. error ≡ SearchError.Memory };

    fn from(_refused: AllocError) -> SearchError {
        SearchError::Memory
    }
}

impl<T: Drop> From<SpawnError<T>> for SearchError {
    ghost from_gives = { λ _ error. error ≡ SearchError.Thread };

    fn from(_refused: SpawnError<T>) -> SearchError {
        SearchError::Thread
    }
}
