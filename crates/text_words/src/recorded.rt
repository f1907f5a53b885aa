//! The entries of a recorded history: commands and their answers.
use history_bytes::RecordedBytes;
use model_words::Refusal;
use text_fields::commands::SpeltCommand;

/// The recorded answer of the allocator.
#[derive(Clone, Drop, PartialEq, Eq)]
pub enum RecordedReply {
    /// `Object(serial, addr)`: the object was made. The allocator chose the serial.
    Object(u32, u64),
    /// The command was done, and has no other answer.
    Done,
    /// The bytes that were loaded.
    Bytes(RecordedBytes),
    /// The address of the object.
    At(u64),
    /// The byte at the address.
    Byte(u8),
    /// The command was refused and changed nothing.
    Refused(Refusal),
}

/// One answered command.
#[derive(Drop)]
pub struct RecordedEntry {
    /// The worker that asked.
    pub worker: u32,
    /// The command. A cell is any 32-bit number, so a recorder can give each object its own cell. Lengths of objects
    /// and offsets are at most 2^47.
    pub command: SpeltCommand,
    /// The answer.
    pub reply: RecordedReply,
}
