//! `MesherCalls`: the calls that a mesher may make, and what it did.
ghost use Rattle.std.specs.Prelude.{◌≡◌};
ghost use Rattle.mesh_shared.specs.Counts.{no_counts};

use crate::counts::MeshCounts;
use mesh_lock::CallBudget;

/// The calls that a mesher may make, and what it did.
#[derive(Drop)]
pub(crate) struct MesherCalls {
    /// The calls that weren't refused, and their limit.
    pub budget: CallBudget,
    pub counts: MeshCounts,
}

impl MesherCalls {
    /// Returns a mesher's calls before the first one. `most` is the number of calls allowed, and `None` is no limit.
    pub(crate) fn of(most: Option<u32>) -> MesherCalls
        ensures most { result.budget.most ≡ most }
        ensures counts { result.counts ≡ no_counts }
    {
        MesherCalls {
            budget: CallBudget::of(most),
            counts: MeshCounts::none(),
        }
    }
}
