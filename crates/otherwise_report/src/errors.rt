//! The reasons why an exploration with a list of steps ends without its report.
ghost use Rattle.std.specs.Prelude.{◌≡◌};
ghost use Rattle.otherwise_report.specs.Errors.{error_of_reach, refused};
ghost use Rattle.otherwise_report.specs.declared.errors.StepsError.{StepsError};

use crate::list_fault::ListFault;
use states_reach::ReachError;
use std::alloc::AllocError;
use text_devices::ReplayError;
use thiserror::Error;

/// The reason why an exploration with a list of steps ends without its report.
#[derive(Clone, Copy, Debug, PartialEq, Eq, Error)]
pub enum StepsError {
    /// One of the errors of a replay: the input failed, the text is no job file, an allocation failed, or the output
    /// failed.
    #[error("{0}")]
    Replay(ReplayError),
    /// Moves can reach more states than the given limit.
    #[error("too many states")]
    TooManyStates,
    /// The text of the steps is no list of steps.
    #[error("no list of steps")]
    Steps(ListFault),
    /// The line of this number of the job's plan, counted from 1, is neither an attempt of a worker that is answered
    /// nor a mesh that is made at once.
    #[error("line {0} of the plan")]
    PlanLine(u32),
    /// A picture is asked for, and nothing is wrong: there is no plan to draw.
    #[error("nothing is wrong")]
    NothingWrong,
}

impl From<AllocError> for StepsError {
    ghost from_gives = { λ _ error. error ≡ refused };

    fn from(_: AllocError) -> StepsError {
        StepsError::Replay(ReplayError::Memory)
    }
}

impl From<ReplayError> for StepsError {
    ghost from_gives = { λ replay error. error ≡ StepsError.Replay replay };

    fn from(error: ReplayError) -> StepsError {
        StepsError::Replay(error)
    }
}

impl From<ReachError> for StepsError {
    ghost from_gives = { λ fault error. error ≡ error_of_reach fault };

    fn from(fault: ReachError) -> StepsError {
        match fault {
            ReachError::TooMany => StepsError::TooManyStates,
            ReachError::Memory => StepsError::Replay(ReplayError::Memory),
        }
    }
}
