//! The reasons for which an entry is rejected.
use history_reading::RecordedReply;

/// The reason why the reference memory rejects an entry.
#[derive(Clone, Drop, PartialEq, Eq)]
pub enum Reason {
    /// The answer differs from the only one that the reference memory allows.
    Differs(Difference),
    /// The answer to a `new` of at least one byte is neither an object nor a refusal that such a `new` can get.
    NoObject(RecordedReply),
    /// The recorded answer is a refusal, but the reference memory performs the command.
    LiveRefused(LiveRefusal),
    /// The serial was given to another object before.
    SerialAgain,
    /// The new object has an address of a live object.
    Overlaps(Overlap),
}

/// Two answers, and how they differ.
#[derive(Clone, Drop, PartialEq, Eq)]
pub struct Difference {
    /// The recorded answer.
    pub answered: RecordedReply,
    /// The answer of the reference memory.
    pub wanted: RecordedReply,
    /// For a `get` or a `peek`, the first byte that differs, among the bytes that both answers have. `None` if there is
    /// no such byte, or for another command.
    pub byte: Option<DifferentByte>,
}

/// A byte of an answer that differs from the byte that was stored last.
#[derive(Clone, Copy, PartialEq, Eq)]
pub struct DifferentByte {
    /// The offset of the byte in its object.
    pub offset: u64,
    /// The line of the last `put`, `poke` or `copy` that stored the byte. `None` if none did.
    pub stored_at: Option<u32>,
}

/// A refusal of a command that the reference memory performs.
#[derive(Clone, Drop, PartialEq, Eq)]
pub struct LiveRefusal {
    /// The refusal.
    pub answered: RecordedReply,
    /// The answer of the reference memory.
    pub wanted: RecordedReply,
}

/// A live object that has an address of a new object.
#[derive(Clone, Copy, PartialEq, Eq)]
pub struct Overlap {
    /// The serial of the live object.
    pub serial: u32,
    /// The line of the `new` that made the live object.
    pub made_at: u32,
    /// The addresses of the new object.
    pub range: AddressRange,
    /// The addresses of the live object.
    pub other: AddressRange,
}

/// The addresses of an object, from `from` up to but not including `to`.
#[derive(Clone, Copy, PartialEq, Eq)]
pub struct AddressRange {
    /// The first address.
    pub from: u64,
    /// The address after the last.
    pub to: u64,
}
