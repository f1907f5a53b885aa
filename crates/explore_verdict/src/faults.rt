//! The reasons why there is no verdict.
ghost use Rattle.std.specs.Prelude.{◌≡◌};
ghost use Rattle.explore_report.specs.declared.errors.ExploreError.{ExploreError};
ghost use Rattle.explore_verdict.specs.declared.faults.VerdictFault.TheVariants.{Explore};

use crate::list_faults::ListFault;
use crate::mismatches::Unmatchable;
use explore_report::ExploreError;
use text_devices::ReplayError;

/// The reason why there is no verdict.
#[derive(Clone, Copy, Debug, PartialEq, Eq)]
pub enum VerdictFault {
    /// The exploration stopped.
    Explore(ExploreError),
    /// The text of the expected outcomes is no list of outcomes.
    NoList(ListFault),
    /// No outcome can match the pattern of a condition.
    Unmatched(Unmatchable),
}

impl From<ExploreError> for VerdictFault {
    ghost from_gives = { λ error fault. fault ≡ Explore error };

    fn from(error: ExploreError) -> VerdictFault {
        VerdictFault::Explore(error)
    }
}

impl From<ReplayError> for VerdictFault {
    ghost from_gives = { λ replay fault. fault ≡ Explore (ExploreError.Replay replay) };

    fn from(error: ReplayError) -> VerdictFault {
        VerdictFault::Explore(ExploreError::Replay(error))
    }
}
