//! A verdict on the outcomes of an exploration.
//!
//! An `AllocError` means that an allocation failed.
#![tactic(auto)]

mod answers;
mod beginnings;
pub mod begun;
mod block;
mod clause;
mod condition;
mod conditions;
mod expected;
mod faults;
mod judging;
mod list_faults;
mod listing_lines;
mod matching;
mod mismatches;
mod open_block;
mod pattern;
mod report;
mod run;
mod text_set;
mod unseen;

pub use block::Block;
pub use condition::{Condition, Demand};
pub use faults::VerdictFault;
pub use judging::Differences;
pub use list_faults::{ListFault, list_fault};
pub use mismatches::{Mismatch, Unmatchable};
pub use pattern::Pattern;
pub use run::{VerdictOptions, verdict};
