//! `NewObject`, an object that a `new` made.

/// An object that a `new` made.
#[derive(Clone, Copy)]
pub struct NewObject {
    /// The number of the `new`.
    pub number: u32,
    /// The cell that names the object.
    pub cell: u32,
    /// The object's length in bytes.
    pub len: u64,
    /// The object's serial.
    pub serial: u32,
    /// The object's address.
    pub address: u64,
}
