//! The reasons why an exploration ends without its text.
ghost use Rattle.std.specs.Prelude.{◌≡◌};
ghost use Rattle.explore_report.specs.Errors.{error_of_reach, refused};
ghost use Rattle.explore_report.specs.declared.errors.ExploreError.{ExploreError};

use states_reach::ReachError;
use std::alloc::AllocError;
use text_devices::ReplayError;
use thiserror::Error;

/// The reason why an exploration ends without its text.
#[derive(Clone, Copy, Debug, PartialEq, Eq, Error)]
pub enum ExploreError {
    /// One of the errors of a replay: the input failed, the text is no job file, an allocation failed, or the output
    /// failed.
    #[error("{0}")]
    Replay(ReplayError),
    /// Moves can reach more states than the given limit.
    #[error("too many states")]
    TooManyStates,
    /// The exploration has no outcome with the given number.
    #[error("no such outcome")]
    NoOutcome,
    /// The command never gets the given answer in the given phase.
    #[error("no such answer in that phase")]
    NotShown,
}

impl From<AllocError> for ExploreError {
    ghost from_gives = { λ _ error. error ≡ refused };

    fn from(_: AllocError) -> ExploreError {
        ExploreError::Replay(ReplayError::Memory)
    }
}

impl From<ReplayError> for ExploreError {
    ghost from_gives = { λ replay error. error ≡ ExploreError.Replay replay };

    fn from(error: ReplayError) -> ExploreError {
        ExploreError::Replay(error)
    }
}

impl From<ReachError> for ExploreError {
    ghost from_gives = { λ fault error. error ≡ error_of_reach fault };

    fn from(fault: ReachError) -> ExploreError {
        match fault {
            ReachError::TooMany => ExploreError::TooManyStates,
            ReachError::Memory => ExploreError::Replay(ReplayError::Memory),
        }
    }
}
