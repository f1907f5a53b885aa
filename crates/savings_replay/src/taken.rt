//! The result of a call.

/// The result of a call.
#[derive(Clone, Copy, Debug, PartialEq, Eq)]
pub enum Taken {
    /// The call was made.
    Made,
    /// The call can't be made, because the cell of a `free` or an `alias` holds no live object.
    NoObject,
    /// The call can't be made, because a heap has too few virtual pages left for the object of a `new`.
    NoAddresses,
}
