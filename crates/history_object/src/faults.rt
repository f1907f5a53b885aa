//! The errors of a judge.
use states_reach::ReachError;
use std::alloc::AllocError;
use thiserror::Error;

/// The reason for which a judge can't take an event.
#[derive(Clone, Copy, Debug, PartialEq, Eq, Error)]
pub enum JudgeFault {
    /// At the end of a call, more configurations are met than the caller allows.
    #[error("too many configurations")]
    TooMany,
    /// 64 calls are pending, and another call begins.
    #[error("too many pending calls")]
    TooManyPending,
    /// An allocation failed.
    #[error("out of memory")]
    Memory,
}

impl From<AllocError> for JudgeFault {
    ghost use Rattle.std.specs.Prelude.{◌≡◌};
    ghost use Rattle.history_object.specs.declared.faults.JudgeFault.TheVariants.{Memory};

    ghost from_gives = { λ _ fault. fault ≡ Memory };

    fn from(_: AllocError) -> JudgeFault {
        JudgeFault::Memory
    }
}

impl From<ReachError> for JudgeFault {
    ghost use Rattle.std.specs.Prelude.{◌≡◌};
    ghost use Rattle.history_object.specs.Faults.{fault_of};

    ghost from_gives = { λ e fault. fault ≡ fault_of e };

    fn from(error: ReachError) -> JudgeFault {
        match error {
            ReachError::TooMany => JudgeFault::TooMany,
            ReachError::Memory => JudgeFault::Memory,
        }
    }
}
