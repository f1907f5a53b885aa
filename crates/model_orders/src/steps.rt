//! The steps that a list can have.

/// A step of a mesh. It is made for each page of the source.
#[derive(Clone, Copy, Debug, PartialEq, Eq)]
pub enum Step {
    /// The virtual page becomes read-only.
    Protect,
    /// Loads and stores of the virtual page are blocked.
    Hide,
    /// The bytes that are live now are copied from the source's physical page to the destination's.
    Copy,
    /// The virtual page is mapped to the destination's physical page.
    Remap,
    /// Loads and stores are allowed again.
    Unprotect,
    /// The source's physical page is released: another owner may store there.
    Release,
}
