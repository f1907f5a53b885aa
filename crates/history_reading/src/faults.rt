//! The errors that stop the reading of a history of overlapping calls.
ghost use Rattle.std.specs.Prelude.{◌≡◌};
ghost use Rattle.history_reading.specs.CallFaults.{call_error_of};
ghost use Rattle.history_reading.specs.declared.faults.CallError.{CallError};

use model_words::TextFault;
use std::alloc::AllocError;
use text_devices::ReplayError;
use thiserror::Error;

/// The reason why the reading of a history of overlapping calls stopped.
#[derive(Clone, Copy, Debug, PartialEq, Eq, Error)]
pub enum CallError {
    /// The first fault of the text.
    #[error("{0}")]
    Text(TextFault),
    /// The call in this line is out of order. Either it began before the call of an earlier line, or it didn't begin
    /// after the end of an earlier call of the same worker.
    #[error("line {0}: ORDER")]
    Order(u32),
    /// The input failed, or returned more bytes than the buffer has room for.
    #[error("read fault")]
    Read,
    /// An allocation failed.
    #[error("out of memory")]
    Memory,
}

impl From<ReplayError> for CallError {
    ghost from_gives = { λ fault error. error ≡ call_error_of fault };

    fn from(fault: ReplayError) -> CallError {
        match fault {
            ReplayError::Text(fault) => CallError::Text(fault),
            ReplayError::Memory => CallError::Memory,
            ReplayError::Read | ReplayError::Write => CallError::Read,
        }
    }
}

impl From<AllocError> for CallError {
    ghost from_gives = { λ _ error. error ≡ CallError.Memory };

    fn from(_failed: AllocError) -> CallError {
        CallError::Memory
    }
}
