//! A call in a history of overlapping calls.
use text_words::RecordedEntry;

/// The end of a call that was pending when the recording stopped: 2^64, which is after the end of any other call.
pub const NEVER: u128 = 18_446_744_073_709_551_616;

/// One command with its answer, and the times at which its call began and ended.
#[derive(Drop)]
pub struct TimedCall {
    /// The time at which the call began.
    pub begin: u64,
    /// The time at which the call ended. It isn't below `begin`. It is `NEVER` if the call was pending when the
    /// recording stopped.
    pub end: u128,
    /// The worker, the command and the answer. The answer of a pending call isn't known, and is a stand-in.
    pub entry: RecordedEntry,
}
