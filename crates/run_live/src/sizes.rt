//! The sizes of a session.

/// The sizes of a live session, as the header of a job file has them.
#[derive(Clone, Copy, PartialEq, Eq)]
pub struct Sizes {
    /// The number of physical pages of the arena, 1 to 4,096.
    pub pages: u32,
    /// The number of entries that the journal has room for, 0 to 65,536.
    pub history: u32,
    /// The number of workers, 1 to 64.
    pub workers: u32,
}
