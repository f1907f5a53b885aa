//! An object that a mesh has seen.

/// An object that a step has seen in a slot of the source.
#[derive(Clone, Copy, Debug, PartialEq, Eq)]
pub struct Seen {
    /// The number of the slot.
    pub slot: u32,
    /// The length of the object in bytes.
    pub len: u32,
}
