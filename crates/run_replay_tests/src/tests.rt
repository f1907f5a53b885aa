//! The tests. The expected table of `savings` was printed by another engine. Every other expected text was worked out
//! by hand from the rules, and none was copied from a run.

use run_tests::memory::Ran;
use std::fmt::Display;
use std::process::Abort;

mod checks;
mod replays;
mod savings;

/// Asserts that a case passed. A failure prints the case and its run.
fn check<N: Display + Drop>(rt: &(impl Abort + AllocGlobal), goes: bool, run: &Ran, case: N) {
    assert!(rt; goes, "{case}: {run:?}");
}
