//! The reasons why the points of a plan aren't shown.
ghost use Rattle.std.specs.Prelude.{◌≡◌};
ghost use Rattle.draw_job.specs.declared.draw_error.DrawError.{DrawError};
ghost use Rattle.text_devices.specs.declared.faults.ReplayError.{ReplayError};

use std::alloc::AllocError;
use text_devices::ReplayError;
use thiserror::Error;

/// The reason why the points of a plan that were asked for weren't all shown.
#[derive(Clone, Copy, Debug, PartialEq, Eq, Error)]
pub enum DrawError {
    /// A fault that stops a replay too: the input failed, its text is no job file, an allocation failed, or the output
    /// failed.
    #[error("{0}")]
    Replay(ReplayError),
    /// The plan has this number of lines, and ends before the first line that was asked for. Nothing was written.
    #[error("the plan ends at line {0}")]
    PlanEnds(u32),
}

impl From<ReplayError> for DrawError {
    ghost from_gives = { λ replay error. error ≡ DrawError.Replay replay };

    fn from(error: ReplayError) -> DrawError {
        DrawError::Replay(error)
    }
}

impl From<AllocError> for DrawError {
    ghost from_gives = { λ _ error. error ≡ DrawError.Replay ReplayError.Memory };

    fn from(_refused: AllocError) -> DrawError {
        DrawError::Replay(ReplayError::Memory)
    }
}
