//! What can be wrong in a state.

/// What can be wrong in a state, whatever commands follow.
#[derive(Clone, Copy, Debug, PartialEq, Eq)]
pub enum FaultKind {
    /// A load that isn't blocked would get a wrong byte of a live object.
    WrongByte,
    /// Two live objects have a byte at one place of the physical memory.
    SharedPlace,
    /// A byte of a live object is on a physical page that is free.
    FreePage,
    /// A byte of a live object is on a virtual page that isn't mapped.
    NoPage,
    /// No mesh runs, and no virtual page is mapped to a physical page that is taken.
    LostPage,
    /// No mesh runs, and a page of a group's member isn't mapped to the group's physical page.
    ApartGroup,
    /// No mesh runs, and a virtual page is protected.
    ProtectedPage,
}

/// What is wrong in a state.
#[derive(Clone, Copy, Debug, PartialEq, Eq)]
pub enum Fault {
    /// The byte at this offset of the object of this serial.
    Byte(u32, u32),
    /// The physical page of this number.
    Page(u16),
    /// The group of this number.
    Group(u32),
    /// The virtual page of this number.
    VirtualPage(u32),
}
