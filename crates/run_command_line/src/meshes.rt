//! The list of the meshes of an exploration.
ghost use Rattle.std.specs.Prelude.{◌≡◌, ◌+◌, ◌<◌, ◌≤◌, [], ◌∷◌, ◌++◌, length, take};

use explore_interleavings::MeshPair;

/// The greatest number of meshes in an exploration.
pub(crate) const MOST_MESHES: usize = 10;

/// Up to ten meshes, in the order in which they are given.
#[derive(Clone, Copy)]
pub struct Meshes {
    // The pairs at index `count` and above are unused: group 0 into group 0.
    pairs: [MeshPair; MOST_MESHES],
    count: usize,
    pub ghost fits: { count ≤ 10 },
}

impl Meshes {
    /// Returns an empty list of meshes.
    pub(crate) fn none() -> Meshes
        ensures pairs { take result.count result.pairs ≡ [] }
        ensures count { result.count ≡ 0 }
    {
        let unused = MeshPair {
            source: 0,
            destination: 0,
        };
        Meshes {
            pairs: [unused; MOST_MESHES],
            count: 0,
        }
    }

    /// Returns the meshes in their order.
    pub fn as_slice(&self) -> &[MeshPair]
        ensures { result.now ≡ take self.now.count self.now.pairs }
    {
        &self.pairs[..self.count]
    }

    /// Appends a mesh to the list, which must have fewer than ten.
    pub(crate) fn add(&mut self, pair: MeshPair)
        requires { self.old.count < 10 }
        ensures pairs { take self.new.count self.new.pairs ≡ take self.old.count self.old.pairs ++ pair ∷ [] }
        ensures count { self.new.count ≡ self.old.count + 1 }
    {
        self.pairs[self.count] = pair;
        self.count += 1;
    }
}
