//! The words of commands and answers, read and written: those of a job, of a replay and of a recorded history.
//!
//! - `recorded` defines an entry of a recorded history: a command and its answer.
//! - `replies` and `refusals` read the answers of a recorded history.
//! - `answers` writes answers, and the numbers, addresses and bytes in them. `commands` writes commands.
//!
//! No text has a line end. Every error of an `add_..` function is an allocation failure; a beginning of the text may
//! then be appended.
#![tactic(auto)]

mod answers;
mod commands;
mod recorded;
mod refusals;
mod replies;

pub use answers::{add_address, add_bytes, add_decimal, add_recorded, add_refusal, add_reply};
pub use commands::{add_command, add_named, add_numbers, add_object_command};
pub use recorded::{RecordedEntry, RecordedReply};
pub use refusals::refusal_named;
pub use replies::reply_of;
