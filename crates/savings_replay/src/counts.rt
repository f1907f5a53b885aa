//! The counts of the calls.
ghost use Rattle.std.specs.Prelude.{◌≡◌, ◌<◌, ◌-◌, ◌^◌};
ghost use Rattle.savings_replay.specs.Counts.{IsFew, alias_counted, large_free_counted, large_new_counted, no_count, no_mesh, small_free_counted, small_new_counted, whole_pages};

use mesh_class::Class;

/// The size of a page in bytes.
const PAGE: u128 = 4096;

/// The counts of the calls so far. An object of up to 2,048 bytes is small, and any other object is large.
#[derive(Clone, Copy, Debug)]
pub struct Counts {
    /// The number of calls made.
    pub calls: u32,
    /// The number of objects made.
    pub made: u32,
    /// The number of small objects made.
    pub small: u32,
    /// The maximal number of small objects that were live at once.
    pub most_small: u32,
    /// The number of large objects made.
    pub large: u32,
    /// The number of pages of all live large objects, if the length of each object is rounded up to whole pages. The
    /// number can need more than 64 bits.
    pub large_pages: u128,
    /// The maximum of `large_pages` so far.
    pub most_large_pages: u128,
    /// The number of small objects freed since the last round.
    pub since: u32,
    /// The number of rounds made.
    pub rounds: u32,
    /// Whether each class has ever had an object, from the smallest class to the largest.
    pub used: [bool; 10],
}

/// The counts of all meshes.
#[derive(Clone, Copy, Debug, PartialEq, Eq)]
pub struct MeshCounts {
    /// The number of pairs that were meshed.
    pub meshes: u64,
    /// The number of pairs that a search found, and whose mesh was refused.
    pub refused: u64,
    /// The number of bytes of the objects that meshes moved.
    pub moved: u64,
    /// How often two groups were compared in searches. The number can need more than 64 bits.
    pub tries: u128,
}

impl MeshCounts {
    /// Returns the counts before the first mesh.
    pub(crate) fn none() -> MeshCounts
        ensures { result ≡ no_mesh }
    {
        MeshCounts {
            meshes: 0,
            refused: 0,
            moved: 0,
            tries: 0,
        }
    }
}

/// Returns the number of pages that `len` bytes need.
fn whole_pages(len: u64) -> u128
    ensures { result ≡ whole_pages len }
{
    (u128::from(len) + (PAGE - 1)) / PAGE
}

impl Counts {
    /// Returns the counts before the first call.
    pub(crate) fn none() -> Counts
        ensures value { result ≡ no_count }
        ensures few { IsFew result }
    {
        Counts {
            calls: 0,
            made: 0,
            small: 0,
            most_small: 0,
            large: 0,
            large_pages: 0,
            most_large_pages: 0,
            since: 0,
            rounds: 0,
            used: [false; 10],
        }
    }

    /// Returns the counts after a small object of a class was made. `live` is the number of live small objects with
    /// this object.
    pub(crate) fn small_new(&self, class: Class, live: u32) -> Counts
        requires few { IsFew self.now }
        requires calls { self.now.calls < 2 ^ 32 - 1 }
        ensures value { result ≡ small_new_counted self.now class live }
        ensures few { IsFew result }
    {
        let mut used = self.used;
        used[class.index() as usize] = true;
        Counts {
            calls: self.calls + 1,
            made: self.made + 1,
            small: self.small + 1,
            most_small: self.most_small.max(live),
            used,
            ..*self
        }
    }

    /// Returns the counts after a large object of `len` bytes was made.
    pub(crate) fn large_new(&self, len: u64) -> Counts
        requires few { IsFew self.now }
        requires calls { self.now.calls < 2 ^ 32 - 1 }
        ensures value { result ≡ large_new_counted self.now len }
        ensures few { IsFew result }
    {
        let large_pages = self.large_pages + whole_pages(len);
        Counts {
            calls: self.calls + 1,
            made: self.made + 1,
            large: self.large + 1,
            large_pages,
            most_large_pages: self.most_large_pages.max(large_pages),
            ..*self
        }
    }

    /// Returns the counts after a small object was freed. If `is_due`, also counts the round that follows.
    pub(crate) fn small_free(&self, is_due: bool) -> Counts
        requires few { IsFew self.now }
        requires calls { self.now.calls < 2 ^ 32 - 1 }
        ensures value { result ≡ small_free_counted self.now is_due }
        ensures few { IsFew result }
    {
        Counts {
            calls: self.calls + 1,
            since: if is_due { 0 } else { self.since + 1 },
            rounds: self.rounds + u32::from(is_due),
            ..*self
        }
    }

    /// Returns the counts after a large object of `len` bytes was freed.
    pub(crate) fn large_free(&self, len: u64) -> Counts
        requires few { IsFew self.now }
        requires calls { self.now.calls < 2 ^ 32 - 1 }
        ensures value { result ≡ large_free_counted self.now len }
        ensures few { IsFew result }
    {
        Counts {
            calls: self.calls + 1,
            large_pages: self.large_pages.saturating_sub(whole_pages(len)),
            ..*self
        }
    }

    /// Returns the counts after a reference was stored in another cell.
    pub(crate) fn alias(&self) -> Counts
        requires few { IsFew self.now }
        requires calls { self.now.calls < 2 ^ 32 - 1 }
        ensures value { result ≡ alias_counted self.now }
        ensures few { IsFew result }
    {
        Counts {
            calls: self.calls + 1,
            ..*self
        }
    }
}
