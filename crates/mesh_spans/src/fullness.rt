//! `Fullness`: whether a group is empty, partly filled or full.
ghost use Rattle.std.specs.Prelude.{◌≡◌, ◌≤◌};
ghost use Rattle.mesh_spans.specs.GroupBins.{fullness_place};

/// The fullness of a group. Each class has one bin for each case.
#[derive(Clone, Copy, PartialEq, Eq)]
pub(crate) enum Fullness {
    /// No slot is occupied.
    Empty,
    /// Some slots are occupied, and some are free.
    Partial,
    /// Each slot is occupied.
    Full,
}

impl Fullness {
    /// Returns the position, among the three bins of a class, of the bin for this fullness.
    pub(crate) fn place(self) -> u32
        ensures place { result ≡ fullness_place self }
        ensures few { result ≤ 2 }
    {
        match self {
            Fullness::Empty => 0,
            Fullness::Partial => 1,
            Fullness::Full => 2,
        }
    }
}
