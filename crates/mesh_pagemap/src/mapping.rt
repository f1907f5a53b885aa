//! `Mapping`, a virtual page with its physical page and its protection.

/// A mapped virtual page, with its physical page and its protection.
#[derive(Clone, Copy, PartialEq, Eq)]
pub struct Mapping {
    /// The number of the virtual page.
    pub virtual_page: u32,
    /// The number of the physical page.
    pub physical_page: u32,
    /// Whether stores to the virtual page are blocked.
    pub read_only: bool,
}
