//! The errors of `Shared::open` and of `settle`.
ghost use Rattle.std.specs.Prelude.{◌≡◌};
ghost use Rattle.mesh_lock.specs.declared.faults.FinishError.{FinishError};
ghost use Rattle.mesh_lock.specs.declared.faults.OpenError.{OpenError};

use std::alloc::AllocError;
use thiserror::Error;

/// The reason why no seats could be created.
#[derive(Debug, Drop, PartialEq, Eq, Error)]
pub enum OpenError {
    /// An allocation failed.
    #[error("out of memory")]
    Memory,
}

/// The reason why the seats and the journal don't form a history.
///
/// The first of `SeatMissing`, `SeatDiffers` and `ReadDiffers` that applies is returned, but `Memory` may take the
/// place of `ReadDiffers`. Which seat and which call an error names is this project's own choice.
#[derive(Debug, Drop, PartialEq, Eq, Error)]
pub enum FinishError {
    /// The first place, below the expected number of seats, whose seat is missing or doesn't have the place's number.
    /// If there is no such place, the field is the expected number of seats. In this case more seats were passed in, or
    /// the journal has an entry of a worker without a seat.
    #[error("SEAT_MISSING {0}")]
    SeatMissing(u32),
    /// The first seat whose recorded calls differ from its worker's entries in the journal, and the first place at
    /// which the two lists differ.
    #[error("SEAT_DIFFERS {seat}, {call}")]
    SeatDiffers {
        /// The seat's number.
        seat: u32,
        /// The place of the difference among the seat's calls that aren't reads, counted from 0.
        call: usize,
    },
    /// A read whose answer differs from the reference memory's answer at the read's place in the journal, or a read
    /// that can't be at its place in the journal. The error names the first such read of the first seat that has one.
    #[error("READ_DIFFERS {seat}, {call}")]
    ReadDiffers {
        /// The seat's number.
        seat: u32,
        /// The place of the read among all calls of the seat, counted from 0.
        call: usize,
    },
    /// An allocation failed.
    #[error("out of memory")]
    Memory,
}

impl From<AllocError> for FinishError {
    ghost from_gives = { λ _ error. error ≡ FinishError.Memory };

    fn from(_refused: AllocError) -> FinishError {
        FinishError::Memory
    }
}

impl From<AllocError> for OpenError {
    ghost from_gives = { λ _ error. error ≡ OpenError.Memory };

    fn from(_refused: AllocError) -> OpenError {
        OpenError::Memory
    }
}
