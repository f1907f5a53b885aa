//! The reasons why a run in threads returns no result.
ghost use Rattle.std.specs.Prelude.{◌≡◌};
ghost use Rattle.mesh_shared.specs.Stops.{either_stop, error_of, first_of, stop_of};
ghost use Rattle.mesh_shared.specs.declared.stops.RunError.{RunError};
ghost use Rattle.mesh_shared.specs.declared.stops.EarlyExit.{EarlyExit};

use mesh_lock::{FinishError, OpenError};
use mesh_search::SearchError;
use std::alloc::AllocError;
use thiserror::Error;

/// The reason why a run in threads returns no result. If several errors occurred, it is the first in the order of the
/// variants.
#[derive(Debug, Drop, PartialEq, Eq, Error)]
pub enum RunError {
    /// An allocation failed: for the seats, for the threads, for a worker's `New`, for a mesher's views, or in a
    /// mesher's search.
    #[error("out of memory")]
    Memory,
    /// A thread couldn't be started, or a searcher's answer isn't the one that was asked for.
    #[error("thread fault")]
    Thread,
    /// The journal had no room for a worker's command.
    #[error("history full")]
    History,
    /// All threads ended without a stop, but the journal and the seats don't merge into a history, or an allocation for
    /// the history failed.
    #[error("{0}")]
    Finish(FinishError),
}

impl From<OpenError> for RunError {
    ghost from_gives = { λ _ error. error ≡ RunError.Memory };

    fn from(refused: OpenError) -> RunError {
        match refused {
            OpenError::Memory => RunError::Memory,
        }
    }
}

impl From<AllocError> for RunError {
    ghost from_gives = { λ _ error. error ≡ RunError.Memory };

    fn from(_refused: AllocError) -> RunError {
        RunError::Memory
    }
}

impl From<FinishError> for RunError {
    ghost from_gives = { λ end error. error ≡ RunError.Finish end };

    fn from(error: FinishError) -> RunError {
        RunError::Finish(error)
    }
}

impl From<EarlyExit> for RunError {
    ghost from_gives = { λ stop error. error ≡ error_of stop };

    fn from(stop: EarlyExit) -> RunError {
        match stop {
            EarlyExit::Memory => RunError::Memory,
            EarlyExit::Thread => RunError::Thread,
            EarlyExit::History => RunError::History,
        }
    }
}

/// The reason why a thread ended before it was done.
#[derive(Clone, Copy, PartialEq, Eq)]
pub(crate) enum EarlyExit {
    /// An allocation failed.
    Memory,
    /// A thread couldn't be started, or a searcher's answer isn't the one that was asked for.
    Thread,
    /// The journal was full.
    History,
}

impl From<AllocError> for EarlyExit {
    ghost from_gives = { λ _ stop. stop ≡ EarlyExit.Memory };

    fn from(_refused: AllocError) -> EarlyExit {
        EarlyExit::Memory
    }
}

impl From<SearchError> for EarlyExit {
    ghost from_gives = { λ error stop. stop ≡ stop_of error };

    fn from(error: SearchError) -> EarlyExit {
        match error {
            SearchError::Memory => EarlyExit::Memory,
            SearchError::Thread => EarlyExit::Thread,
        }
    }
}

impl EarlyExit {
    /// Returns the one of two stops that is reported: the first in the order `Memory`, `Thread`, `History`.
    fn first_of(self, other: EarlyExit) -> EarlyExit
        ensures { result ≡ first_of self other }
    {
        match (self, other) {
            (EarlyExit::Memory, _) | (_, EarlyExit::Memory) => EarlyExit::Memory,
            (EarlyExit::Thread, _) | (_, EarlyExit::Thread) => EarlyExit::Thread,
            _ => EarlyExit::History,
        }
    }
}

/// Returns the stop that is reported for two threads. If neither thread was stopped, returns `None`.
pub(crate) fn either_stop(one: Option<EarlyExit>, other: Option<EarlyExit>) -> Option<EarlyExit>
    ensures { result ≡ either_stop one other }
{
    match (one, other) {
        (Some(one), Some(other)) => Some(one.first_of(other)),
        (Some(stop), None) | (None, Some(stop)) => Some(stop),
        (None, None) => None,
    }
}
