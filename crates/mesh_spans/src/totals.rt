//! `Totals`: the counts over a number of groups.
ghost use Rattle.std.specs.Prelude.{◌≡◌, ◌≤◌, None};
ghost use Rattle.mesh_spans.specs.Counts.{IsPart, IsWithin, counts_of, with_group, without_group};

/// The counts over a number of groups.
#[derive(Clone, Copy, PartialEq, Eq)]
pub struct Totals {
    /// The number of live objects.
    pub objects: u32,
    /// The sum of the lengths of the live objects, in bytes.
    pub bytes: u32,
    /// The number of mapped virtual pages, summed over all members of the groups.
    pub mapped: u32,
}

impl Totals {
    /// Returns counts that are all 0.
    pub(crate) fn none() -> Totals
        ensures { result ≡ counts_of None }
    {
        Totals {
            objects: 0,
            bytes: 0,
            mapped: 0,
        }
    }

    /// Returns these counts with the counts of one group added.
    pub(crate) fn with_group(self, group: Totals) -> Totals
        requires few { IsWithin 65536 self }
        requires one { IsWithin 1 group }
        ensures { result ≡ with_group self group }
    {
        Totals {
            objects: self.objects + group.objects,
            bytes: self.bytes + group.bytes,
            mapped: self.mapped + group.mapped,
        }
    }

    /// Returns these counts with the counts of one group subtracted.
    pub(crate) fn without_group(self, group: Totals) -> Totals
        requires { IsPart group self }
        ensures { result ≡ without_group self group }
    {
        Totals {
            objects: self.objects - group.objects,
            bytes: self.bytes - group.bytes,
            mapped: self.mapped - group.mapped,
        }
    }
}
