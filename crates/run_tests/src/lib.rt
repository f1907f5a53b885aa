//! Tests of the program's runs in memory, and of command lines that start no run.
//!
//! The runs are explorations, live sessions and scripts on threads. Tests of replays are in `run_replay_tests`.
//!
//! The module `memory` contains what the tests of both crates share. Besides `memory`, only the tests and their helpers
//! are proved.
#![tactic(auto)]

pub mod memory;
#[cfg(test)]
mod tests;
