//! Entries in the form that the journal stores.
use mesh_packed::{PackedCommand, PackedReply};

/// An entry of 32 bytes, without the bytes that its command stores or its reply loads. Fields are laid out in the order
/// of their declaration, so the widest field comes first.
#[derive(Drop)]
pub(crate) struct PackedEntry {
    /// The command.
    pub(crate) command: PackedCommand,
    /// Its reply.
    pub(crate) reply: PackedReply,
    /// The worker's number.
    pub(crate) worker: u32,
}
