//! The seventeen reasons for which a call on the heap can be refused.
ghost use Rattle.std.specs.Prelude.{◌≡◌, ◌≤◌, codes};
ghost use Rattle.model_words.specs.Refusals.{number_of, name_of};

use thiserror::Error;

/// The names of the refusals, in the order of their numbers.
const REFUSAL_NAMES: [&str; 17] = [
    "ZERO",
    "TOO_LARGE",
    "NO_PAGES",
    "NO_ADDRESSES",
    "EMPTY",
    "FREED",
    "OUTSIDE",
    "STRAY",
    "NO_GROUP",
    "SAME",
    "CLASS",
    "BUSY",
    "OVERLAP",
    "MEMBERS",
    "NO_MESH",
    "TOO_LATE",
    "NOT_EMPTY",
];

/// The reason for which a call was refused. A refused call changes nothing in the heap and the root cells.
///
/// If several refusals hold for one call, the refusal with the lowest number is the answer. Numbers and names are this
/// project's own choice.
#[derive(Clone, Copy, Debug, PartialEq, Eq, Error)]
#[error("{}", self.name())]
pub enum Refusal {
    /// `new`: the length is 0.
    Zero,
    /// `new`: the length is above 2,048.
    TooLarge,
    /// `new`: each group of the class is full or in a running mesh, and the arena has too few free pages for a new
    /// span.
    NoPages,
    /// `new`: each group of the class is full or in a running mesh, and too few virtual pages remain that were never
    /// used.
    NoAddresses,
    /// The root cell holds no reference.
    Empty,
    /// The object that the reference names is no longer live.
    Freed,
    /// The sum of offset and length is above the object's length.
    Outside,
    /// `peek`, `poke`: the address is in the range of no live object.
    Stray,
    /// No group has this number now.
    NoGroup,
    /// Source and destination are one group.
    Same,
    /// The two groups have different size classes.
    Class,
    /// `begin`, `whole`: a mesh is running. In `mesh 2`: a mesh of the same class is running. `sweep`: the group is in
    /// a running mesh.
    Busy,
    /// Some slot number is occupied in both groups.
    Overlap,
    /// The two groups together have more than eight members.
    Members,
    /// `step`, `cancel`: no mesh is running. In `mesh 2`: no mesh of the named class is running.
    NoMesh,
    /// `cancel`: the mesh has made its first remap.
    TooLate,
    /// `sweep`: the group has an object.
    NotEmpty,
}

impl Refusal {
    /// Returns the number, 1 to 17, that answer lines print.
    pub fn number(self) -> u8
        ensures value { result ≡ number_of self }
        ensures first { 1 ≤ result }
        ensures last { result ≤ 17 }
    {
        match self {
            Refusal::Zero => 1,
            Refusal::TooLarge => 2,
            Refusal::NoPages => 3,
            Refusal::NoAddresses => 4,
            Refusal::Empty => 5,
            Refusal::Freed => 6,
            Refusal::Outside => 7,
            Refusal::Stray => 8,
            Refusal::NoGroup => 9,
            Refusal::Same => 10,
            Refusal::Class => 11,
            Refusal::Busy => 12,
            Refusal::Overlap => 13,
            Refusal::Members => 14,
            Refusal::NoMesh => 15,
            Refusal::TooLate => 16,
            Refusal::NotEmpty => 17,
        }
    }

    /// Returns the name that answer lines print, in upper case.
    pub fn name(self) -> &'static str
        ensures { result.now ≡ name_of self }
    {
        REFUSAL_NAMES[usize::from(self.number() - 1)]
    }
}
