//! The tests. Each expected text was worked out by hand from the rules, and none was copied from a run.

use crate::memory::Ran;
use std::fmt::Display;
use std::process::Abort;

mod runs;

/// Asserts that `goes` is true for the run of a case. All tests share this function, because an assertion is proved
/// again at each place where it is written.
fn check<N: Display + Drop>(rt: &(impl Abort + AllocGlobal), goes: bool, run: &Ran, case: N) {
    assert!(rt; goes, "{case}: {run:?}");
}
