//! Each expected answer was worked out by hand from the rules, and none was copied from a run.

mod heap;
mod plain;
mod search;
