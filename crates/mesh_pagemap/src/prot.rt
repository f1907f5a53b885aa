//! The protection of a virtual page.

/// The accesses that a virtual page allows.
#[derive(Clone, Copy, PartialEq, Eq)]
pub enum Prot {
    /// Loads only; a store into the page is blocked.
    ReadOnly,
    /// Loads and stores.
    ReadWrite,
}
