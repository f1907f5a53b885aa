//! The answers of the heap's calls.
use model_words::Refusal;

/// A reference to an object, by its serial and its address. The reference is stale once the slot at this address has no
/// object, or one with another serial.
#[derive(Clone, Copy, Debug, PartialEq, Eq)]
pub struct Ref {
    /// The object's serial. Objects are numbered in the order of their creation.
    pub serial: u32,
    /// The address of the object's first byte.
    pub addr: u32,
}

/// The answer to a store.
#[derive(Clone, Copy, Debug, PartialEq, Eq)]
pub enum Stored {
    /// The bytes were stored.
    Done,
    /// No refusal applies, but a page that the store would write to is read-only. No byte was stored.
    Blocked,
    /// The store was refused. No byte was stored.
    Refused(Refusal),
}
