//! The kinds of texts, and of the lines of a history.

/// The kind of text that a reader wanted.
#[derive(Clone, Copy, Debug, PartialEq, Eq)]
pub enum TextKind {
    /// A job file.
    Job,
    /// A recorded history of version 1 or 2.
    History,
}

/// The kind of the entries of a history.
#[derive(Clone, Copy, Debug, PartialEq, Eq)]
pub enum EntryKind {
    /// Version 1: entries in the order of their effects.
    InOrder,
    /// Version 2: calls that overlap, with their times.
    Overlapping,
}
