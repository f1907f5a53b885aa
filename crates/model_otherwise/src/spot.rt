//! A byte of memory that isn't zero.

/// A byte that isn't zero, and its place.
///
/// A place is the number of a byte of the physical memory: 4,096 times the number of its page, plus its offset there.
#[derive(Clone, Copy, Debug, PartialEq, Eq)]
pub struct Spot {
    /// The place, below 2^28.
    pub place: u32,
    /// The byte, 1 to 255.
    pub value: u8,
}
