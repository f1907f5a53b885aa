//! The reasons why a verdict isn't given.
ghost use Rattle.run_program.specs.Explores.{error_of_fault};
ghost use Rattle.explore_report.specs.Errors.{refused};
ghost use Rattle.run_program.specs.declared.verdict_error.VerdictError.TheVariants.{Explore};
ghost use Rattle.std.specs.Prelude.{◌≡◌};

use explore_report::ExploreError;
use explore_verdict::{Demand, ListFault, Unmatchable, VerdictFault};
use std::alloc::AllocError;

/// The reason why a verdict isn't given.
#[derive(Clone, Copy, Debug, PartialEq, Eq)]
pub enum VerdictError {
    /// The text with this number, counted from 1 among those of this demand, spells no condition.
    NoCondition(Demand, u32),
    /// No outcome of the job can match the pattern of a condition.
    Unmatched(Unmatchable),
    /// The text of `--expect` is no list of outcomes.
    NoList(ListFault),
    /// The exploration stopped.
    Explore(ExploreError),
}

impl From<VerdictFault> for VerdictError {
    ghost from_gives = { λ fault error. error ≡ error_of_fault fault };

    fn from(fault: VerdictFault) -> VerdictError {
        match fault {
            VerdictFault::Explore(error) => VerdictError::Explore(error),
            VerdictFault::NoList(fault) => VerdictError::NoList(fault),
            VerdictFault::Unmatched(condition) => VerdictError::Unmatched(condition),
        }
    }
}

impl From<AllocError> for VerdictError {
    ghost from_gives = { λ _ fault. fault ≡ Explore refused };

    fn from(error: AllocError) -> VerdictError {
        VerdictError::Explore(ExploreError::from(error))
    }
}
