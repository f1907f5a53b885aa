//! A count for each class.
ghost use Rattle.std.specs.Prelude.{◌≡◌, ◌+◌, ◌-◌, ◌^◌, ◌<◌, ◌≤◌, replicate, slice_index, slice_set, sum};
ghost use Rattle.mesh_class.specs.Class.{class_index};

use mesh_class::Class;

/// A count for each class, in the order of the class table.
#[derive(Clone, Copy)]
pub(crate) struct ClassCounts {
    counts: [u32; 10],
}

impl ClassCounts {
    /// Counts of zero.
    pub(crate) fn none() -> ClassCounts
        ensures { result.counts ≡ replicate 10 0 }
    {
        ClassCounts { counts: [0; 10] }
    }

    /// The counts by class.
    pub(crate) fn by_class(&self) -> &[u32; 10]
        ensures { result.now ≡ self.now.counts }
    {
        &self.counts
    }

    /// The sum of all counts.
    pub(crate) fn total(&self) -> u32
        requires { sum self.now.counts < 2 ^ 32 }
        ensures { result ≡ sum self.now.counts }
    {
        let [a, b, c, d, e, f, g, h, i, j] = self.counts;
        a + b + c + d + e + f + g + h + i + j
    }

    /// Adds `by` to the count of a class.
    pub(crate) fn raise(&mut self, class: Class, by: u32)
        requires { slice_index self.old.counts (class_index class) + by < 2 ^ 32 }
        ensures { self.new.counts
            ≡ slice_set self.old.counts (class_index class) (slice_index self.old.counts (class_index class) + by) }
    {
        self.counts[class.index() as usize] += by;
    }

    /// Subtracts `by` from the count of a class.
    pub(crate) fn lower(&mut self, class: Class, by: u32)
        requires { by ≤ slice_index self.old.counts (class_index class) }
        ensures { self.new.counts
            ≡ slice_set self.old.counts (class_index class) (slice_index self.old.counts (class_index class) - by) }
    {
        self.counts[class.index() as usize] -= by;
    }
}
