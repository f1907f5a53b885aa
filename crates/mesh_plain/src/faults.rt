//! The errors of calls on the reference memory.
use std::alloc::AllocError;
use thiserror::Error;

/// The reason why a call on the reference memory failed. A failed call changes nothing.
///
/// `Empty`, `Freed`, `Outside` and `Stray` are the refusals of the same names. `Memory` is not a refusal: only calls
/// that allocate return it.
#[derive(Clone, Copy, Debug, PartialEq, Eq, Error)]
pub enum PlainFault {
    /// The root cell holds no serial.
    #[error("the cell is empty")]
    Empty,
    /// The object of the serial that the cell holds is no longer live.
    #[error("the object was freed")]
    Freed,
    /// Offset plus length is greater than the object's length.
    #[error("the range ends past the object")]
    Outside,
    /// The address is in no live object's range.
    #[error("no live object has the address")]
    Stray,
    /// An allocation failed.
    #[error("memory was refused")]
    Memory,
}

impl From<AllocError> for PlainFault {
    ghost use Rattle.std.specs.Prelude.{◌≡◌};
    ghost use Rattle.mesh_plain.specs.declared.faults.PlainFault.TheVariants.{Memory as OfMemory};

    ghost from_gives = { λ _ fault. fault ≡ OfMemory };

    fn from(_: AllocError) -> PlainFault {
        PlainFault::Memory
    }
}
