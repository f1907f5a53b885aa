//! `LineError`, the reason for which a line could not be read.
ghost use Rattle.std.specs.Prelude.{◌≡◌};
ghost use Rattle.text_job.specs.declared.faults.LineError.{LineError};

use model_words::FaultKind;
use std::alloc::AllocError;
use thiserror::Error;

/// The reason for which a line could not be read.
#[derive(Clone, Copy, Debug, PartialEq, Eq, Error)]
pub enum LineError {
    /// The line has a fault.
    #[error("{0}")]
    Kind(FaultKind),
    /// A memory allocation for the result failed.
    #[error("out of memory")]
    Memory,
}

impl From<FaultKind> for LineError {
    ghost from_gives = { λ kind fault. fault ≡ LineError.Kind kind };

    fn from(kind: FaultKind) -> LineError {
        LineError::Kind(kind)
    }
}

impl From<AllocError> for LineError {
    ghost from_gives = { λ _ fault. fault ≡ LineError.Memory };

    fn from(_refused: AllocError) -> LineError {
        LineError::Memory
    }
}
