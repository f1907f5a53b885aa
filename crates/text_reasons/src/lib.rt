//! Says in a sentence what is wrong with the line of a text that has a fault.
//!
//! The readers of texts report the line and the kind of a fault. `add_reason` reads this line again, and appends the
//! reason for the fault.
//!
//! - `grammar` is the table of all lines: for each word, the names of its fields, and their kinds and ranges.
//! - `places` finds a line in a text, and the section of the text that the line belongs to.
//! - `reason` defines `Reason`. Each kind of fault has its own reasons.
//! - `blanks`, `job_words` and `entry_words` find the reasons for the fault WORD: in the blanks of any line, in a line
//!   of a job, and in an entry of a history. `fields` and `spelling` find those for NUMBER and HEX, and `bytes` those
//!   for BYTE and CUT. `finding` chooses between them by the kind of the fault.
//! - `sentences` writes the sentence of a reason, and `quoting` quotes pieces of the text in it.
//!
//! Every error is an allocation failure. A beginning of the text may then be appended.
#![tactic(auto)]

mod blanks;
mod bytes;
mod entry_words;
mod fields;
mod finding;
mod grammar;
mod job_words;
mod kinds;
mod places;
mod quoting;
mod reason;
mod sentences;
mod spelling;

pub use finding::{add_reason, reason_of};
pub use grammar::{Field, FieldKind, Form, Vocabulary};
pub use kinds::{EntryKind, TextKind};
pub use reason::{ByteReason, CutReason, HexReason, NumberReason, Reason, Spelt, WordReason};
