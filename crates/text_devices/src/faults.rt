//! `ReplayError`, the reason for which a replay stops.
ghost use Rattle.std.specs.Prelude.{◌≡◌};
ghost use Rattle.text_devices.specs.Faults.{replay_error_of};
ghost use Rattle.text_devices.specs.declared.faults.ReplayError.{ReplayError};

use model_words::TextFault;
use std::alloc::AllocError;
use text_fields::faults::ReadFault;
use thiserror::Error;

/// The reason for which a replay stopped before all answers of its plan were written.
#[derive(Clone, Copy, Debug, PartialEq, Eq, Error)]
pub enum ReplayError {
    /// A read failed, or returned a number of bytes above the length of its buffer. Nothing was written.
    #[error("read fault")]
    Read,
    /// A write failed, accepted no byte although it was given some, or reported more bytes than it was given. A
    /// beginning of the answers was written.
    #[error("write fault")]
    Write,
    /// An allocation failed. The answers to a beginning of the plan were written, and no part of a further line.
    #[error("out of memory")]
    Memory,
    /// The first fault of the text of the job. Nothing was written.
    #[error("{0}")]
    Text(TextFault),
}

impl From<ReadFault> for ReplayError {
    ghost from_gives = { λ fault error. error ≡ replay_error_of fault };

    fn from(fault: ReadFault) -> ReplayError {
        match fault {
            ReadFault::Text(fault) => ReplayError::Text(fault),
            ReadFault::Memory => ReplayError::Memory,
        }
    }
}

impl From<AllocError> for ReplayError {
    ghost from_gives = { λ _ error. error ≡ ReplayError.Memory };

    fn from(_refused: AllocError) -> ReplayError {
        ReplayError::Memory
    }
}
