//! The text of what the threads of a run did.
//!
//! `add_run_report` appends the lines of a run: one for each mesher, one for each worker, and the report of the heap.
//!
//! An `AllocError` means that an allocation failed; a beginning of the text may then be appended.
#![tactic(auto)]

mod report;

pub use report::add_run_report;
