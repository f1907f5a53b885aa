//! The verdict on a text.
use crate::reasons::Reason;

/// The verdict on a text that has no fault as far as it was read.
#[derive(Clone, Drop, PartialEq, Eq)]
pub enum Verdict {
    /// The text is a legal history with this number of entries.
    Legal(u32),
    /// The entry on this line, numbered from 1, is the first that the reference memory rejects, for this reason.
    Wrong(u32, Reason),
}
