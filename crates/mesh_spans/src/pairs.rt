//! The check whether two groups may be merged.
ghost use Rattle.std.specs.Prelude.{◌≡◌, ◌⊎◌, IfErr, IfNone, IfOk, IfSome, None};
ghost use Rattle.mesh_spans.specs.Index.{group_at};
ghost use Rattle.mesh_spans.specs.Pairs.{AreBoth, IsRefusedPair, MayMerge};

use crate::group::{Group, MAX_MEMBERS};
use crate::index::Spans;
use mesh_class::Refusal;

impl Spans {
    /// Returns the group `source` if it may be merged into the group `destination`. The two groups must be different
    /// groups of one class, and this class must not be busy (`is_busy`). The groups must have no common occupied slot,
    /// and at most eight members together. The groups' own mesh flags are not read.
    ///
    /// The refusal is the first that applies, in this order: NO_GROUP, SAME, CLASS, BUSY, OVERLAP, MEMBERS.
    pub fn may_merge(&self, source: u32, destination: u32, is_busy: bool) -> Result<&Group, Refusal>
        ensures may { IfOk result (λ from. MayMerge self.now source destination is_busy from.now) }
        ensures refused { IfErr result (IsRefusedPair self.now source destination is_busy) }
    {
        self.sound();
        let Some((from, into)) = self.both(source, destination) else {
            return Err(Refusal::NoGroup);
        };
        if source == destination {
            return Err(Refusal::Same);
        }
        if from.class().size() != into.class().size() {
            return Err(Refusal::Class);
        }
        if is_busy {
            return Err(Refusal::Busy);
        }
        if !from.occupied().disjoint(into.occupied()) {
            return Err(Refusal::Overlap);
        }
        if from.members().len() + into.members().len() > MAX_MEMBERS {
            return Err(Refusal::Members);
        }
        Ok(from)
    }

    /// Returns the groups with these two numbers, or `None` if at least one of the numbers has no group.
    fn both(&self, source: u32, destination: u32) -> Option<(&Group, &Group)>
        ensures some { IfSome result (λ both. AreBoth self.now source destination both.0.now both.1.now) }
        ensures none { IfNone result
            (group_at self.now.groups source ≡ None ⊎ group_at self.now.groups destination ≡ None) }
    {
        Some((self.group(source)?, self.group(destination)?))
    }
}
