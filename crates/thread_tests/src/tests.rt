//! All expected answers, errors and counts were worked out by hand from the rules; none was copied from a run.

use std::process::Abort;

mod lock;
mod runs;

/// Asserts that a condition holds. All tests share this function, because an assertion is proved again at each place
/// where it is written.
fn check_that(rt: &impl Abort, holds: bool, what: &str) {
    assert!(rt; holds, "{what}");
}

/// Asserts that a count is the expected one.
fn check_count(rt: &impl Abort, counted: usize, wanted: usize) {
    assert_eq!(rt; counted, wanted);
}
