//! The errors of a report.
ghost use Rattle.std.specs.Prelude.{◌≡◌};
ghost use Rattle.savings_report.specs.declared.errors.SavingsError.{SavingsError};
ghost use Rattle.text_devices.specs.declared.faults.ReplayError.{ReplayError};

use std::alloc::AllocError;
use text_devices::ReplayError;
use thiserror::Error;

/// The reason why there is no report.
#[derive(Clone, Copy, Debug, PartialEq, Eq, Error)]
pub enum SavingsError {
    /// One of the errors of a replay: the input failed, its text has a fault, or an allocation failed.
    #[error("{0}")]
    Replay(ReplayError),
    /// This line has the first `free` or `alias` of a cell that holds no live object.
    #[error("line {0}: not a history")]
    NotAHistory(u32),
}

impl From<ReplayError> for SavingsError {
    ghost from_gives = { λ replay error. error ≡ SavingsError.Replay replay };

    fn from(error: ReplayError) -> SavingsError {
        SavingsError::Replay(error)
    }
}

impl From<AllocError> for SavingsError {
    ghost from_gives = { λ _ error. error ≡ SavingsError.Replay ReplayError.Memory };

    fn from(_refused: AllocError) -> SavingsError {
        SavingsError::Replay(ReplayError::Memory)
    }
}
