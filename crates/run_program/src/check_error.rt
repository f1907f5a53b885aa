//! The reasons why a recorded history isn't judged.
use history_judge::CallError;
use std::alloc::AllocError;
use text_devices::ReplayError;
use thiserror::Error;

/// The reason why a recorded history isn't judged, or why its verdict isn't written.
#[derive(Clone, Copy, Debug, PartialEq, Eq, Error)]
pub enum CheckError {
    /// A fault that also stops a replay.
    #[error("{0}")]
    Replay(ReplayError),
    /// The call on this line is out of order.
    #[error("line {0}: ORDER")]
    Order(u32),
}

impl From<CallError> for CheckError {
    ghost use Rattle.std.specs.Prelude.{◌≡◌};
    ghost use Rattle.run_program.specs.Checks.{check_error_of};

    ghost from_gives = { λ error fault. fault ≡ check_error_of error };

    fn from(error: CallError) -> CheckError {
        match error {
            CallError::Text(fault) => CheckError::Replay(ReplayError::Text(fault)),
            CallError::Order(line) => CheckError::Order(line),
            CallError::Read => CheckError::Replay(ReplayError::Read),
            CallError::Memory => CheckError::Replay(ReplayError::Memory),
        }
    }
}

impl From<ReplayError> for CheckError {
    ghost use Rattle.std.specs.Prelude.{◌≡◌};
    ghost use Rattle.run_program.specs.declared.check_error.CheckError.TheVariants.{Replay};

    ghost from_gives = { λ error fault. fault ≡ Replay error };

    fn from(error: ReplayError) -> CheckError {
        CheckError::Replay(error)
    }
}

impl From<AllocError> for CheckError {
    ghost use Rattle.std.specs.Prelude.{◌≡◌};
    ghost use Rattle.text_devices.specs.declared.faults.ReplayError.{ReplayError};
    ghost use Rattle.run_program.specs.declared.check_error.CheckError.TheVariants.{Replay};

    ghost from_gives = { λ _ fault. fault ≡ Replay ReplayError.Memory };

    fn from(_: AllocError) -> CheckError {
        CheckError::Replay(ReplayError::Memory)
    }
}
