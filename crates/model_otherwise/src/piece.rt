//! A part of an object that is on one page.

/// A part of a live object that is on one virtual page.
#[derive(Clone, Copy, Debug, PartialEq, Eq)]
pub struct Piece {
    /// The serial of the object.
    pub serial: u32,
    /// The number of bytes of the object before this part.
    pub skipped: u32,
    /// The address of the first byte.
    pub address: u32,
    /// The number of bytes.
    pub len: u32,
}
