//! Reads recorded histories: the commands that workers gave to any allocator, and its answers.
//!
//! There are two kinds of history. The entries of a `history 1` are in order. The calls of a `history 2` overlap, and
//! each has the times at which it began and ended, or was pending when the recording stopped. Cells, lengths, offsets
//! and addresses have wider ranges than in a job file. In contracts, entries and calls are those of the reference
//! memory (called plain memory in the code) and of `model_intervals`.
//!
//! - `entries` reads one line of a `history 1`, and `quick` the line of a frequent kind of entry in one pass. An
//!   `EntryReader` (`reading`) returns the entries of a text that is passed in pieces, and a `HistoryInput`
//!   (`entry_inputs`) those of a text that is read from a device.
//! - `calls` reads one line of a `history 2`, and `asked` the part of the line before the answer. A `CallInput`
//!   (`call_inputs`) returns the calls of a text that is read from a device. Each returned call is in order (`order`).
//!
//! An `AllocError` means that an allocation failed.
#![tactic(auto)]

mod asked;
mod call_inputs;
mod calls;
mod entries;
mod entry_inputs;
mod faults;
mod laws;
mod order;
mod quick;
mod reading;
mod words;

pub use call_inputs::CallInput;
pub use calls::{read_call, read_call_head};
pub use entries::{read_entry, read_head};
pub use entry_inputs::HistoryInput;
pub use faults::CallError;
pub use laws::tests_tell_effects;
pub use quick::quick_entry;
pub use reading::EntryReader;
pub use text_fields::commands::SpeltCommand;
pub use text_words::{RecordedEntry, RecordedReply};
pub use words::{NEVER, TimedCall};
