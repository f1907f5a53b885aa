//! `ReadFault` and `LineFault`, the reasons for which a text or a line could not be read.
ghost use Rattle.std.specs.Prelude.{◌≡◌};
ghost use Rattle.text_fields.specs.declared.faults.LineFault.{LineFault};
ghost use Rattle.text_fields.specs.declared.faults.ReadFault.{ReadFault};

use model_words::{FaultKind, TextFault};
use std::alloc::AllocError;
use thiserror::Error;

/// The reason for which a text could not be read.
#[derive(Clone, Copy, Debug, PartialEq, Eq, Error)]
pub enum ReadFault {
    /// The first fault of the text.
    #[error("{0}")]
    Text(TextFault),
    /// An allocation for the result failed.
    #[error("out of memory")]
    Memory,
}

impl From<AllocError> for ReadFault {
    ghost from_gives = { λ _ fault. fault ≡ ReadFault.Memory };

    fn from(_refused: AllocError) -> ReadFault {
        ReadFault::Memory
    }
}

/// The reason for which a line, or a part of it, could not be read.
#[derive(Clone, Copy, Debug, PartialEq, Eq, Error)]
pub enum LineFault {
    /// The kind of the first fault.
    #[error("{0}")]
    Kind(FaultKind),
    /// An allocation for more than 32 bytes failed.
    #[error("out of memory")]
    Memory,
}

impl From<FaultKind> for LineFault {
    ghost from_gives = { λ kind fault. fault ≡ LineFault.Kind kind };

    fn from(kind: FaultKind) -> LineFault {
        LineFault::Kind(kind)
    }
}

impl From<AllocError> for LineFault {
    ghost from_gives = { λ _ fault. fault ≡ LineFault.Memory };

    fn from(_refused: AllocError) -> LineFault {
        LineFault::Memory
    }
}
