//! Commands of mutators on a heap with 256 root cells, and the journal of their answers.
//!
//! A caller drives the `Book`. Each attempt at a command is one call, and every answered command is in the book's
//! journal.
#![tactic(auto)]

mod attempts;
mod book;
mod entry;
mod journal;
mod packed_entry;
mod roots;

pub use attempts::Attempt;
pub use book::Book;
pub use entry::Entry;
pub use journal::Journal;
pub use model_words::{Command, Refusal, Reply};
pub use roots::Roots;
