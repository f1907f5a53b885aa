//! A range of addresses.

/// A range of addresses.
#[derive(Clone, Copy, Debug, PartialEq, Eq)]
pub struct Range {
    /// The first address.
    pub address: u64,
    /// The number of bytes.
    pub len: u32,
}
