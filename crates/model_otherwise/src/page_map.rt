//! Entries of the page map, and accesses to virtual pages.

/// Which accesses a virtual page allows.
#[derive(Clone, Copy, Debug, PartialEq, Eq)]
pub enum Protection {
    /// Loads and stores.
    ReadWrite,
    /// Loads alone.
    ReadOnly,
    /// No access.
    Hidden,
}

/// The physical page to which a virtual page is mapped, and which accesses the virtual page allows.
#[derive(Clone, Copy, Debug, PartialEq, Eq)]
pub struct Entry {
    /// The number of the physical page.
    pub page: u16,
    /// Which accesses are allowed.
    pub protection: Protection,
}

/// What becomes of an access.
#[derive(Clone, Copy, Debug, PartialEq, Eq)]
pub enum Access {
    /// It is allowed on each virtual page that it touches.
    Reached,
    /// Each virtual page is mapped, and the access isn't allowed on one of them. It waits.
    Blocked,
    /// A virtual page isn't mapped. The program crashes.
    NoPage,
}
