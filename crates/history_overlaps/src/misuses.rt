//! `Misuse`: the rule of use that the recorded program breaks.
ghost use Rattle.std.specs.Prelude.{◌≡◌};
ghost use Rattle.history_object.specs.declared.faults.JudgeFault.{JudgeFault};
ghost use Rattle.history_overlaps.specs.declared.misuses.NotBegun.{NotBegun};

use history_object::JudgeFault;
use std::alloc::AllocError;

/// The rule of use that a call breaks. The calls are no history then, whatever the allocator answers.
#[derive(Clone, Copy, PartialEq, Eq)]
pub enum Misuse {
    /// The cell of the `new` is also the cell of an earlier `new`.
    CellAgain,
    /// The call doesn't begin after the end of its object's `new`.
    NotAfterNew,
    /// The call doesn't end before the start of its object's `free`.
    NotBeforeFree,
}

/// A call that breaks a rule of use.
#[derive(Clone, Copy, PartialEq, Eq)]
pub struct Misused {
    /// The number of the call. Calls are numbered from 0 in the order of their starts.
    pub number: u32,
    /// The rule that the call breaks.
    pub misuse: Misuse,
}

/// The reason why a call isn't taken when it begins.
#[derive(Clone, Copy, PartialEq, Eq)]
pub enum NotBegun {
    /// A call breaks a rule of use.
    Misused(Misused),
    /// The judge can't take the call.
    Fault(JudgeFault),
}

impl From<JudgeFault> for NotBegun {
    ghost from_gives = { λ fault not_begun. not_begun ≡ NotBegun.Fault fault };

    fn from(fault: JudgeFault) -> NotBegun {
        NotBegun::Fault(fault)
    }
}

impl From<AllocError> for NotBegun {
    ghost from_gives = { λ _ not_begun. not_begun ≡ NotBegun.Fault JudgeFault.Memory };

    fn from(_failed: AllocError) -> NotBegun {
        NotBegun::Fault(JudgeFault::Memory)
    }
}

impl From<Misused> for NotBegun {
    ghost from_gives = { λ misused not_begun. not_begun ≡ NotBegun.Misused misused };

    fn from(misused: Misused) -> NotBegun {
        NotBegun::Misused(misused)
    }
}
