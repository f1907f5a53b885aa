//! The result of a mesh of two groups.

/// The result of a mesh of two groups.
#[derive(Clone, Copy, Debug, PartialEq, Eq)]
pub struct Meshed {
    /// The number of physical pages that became free.
    pub pages: u32,
    /// The sum of the lengths of the source's objects: the bytes that a heap would copy.
    pub bytes: u32,
}
