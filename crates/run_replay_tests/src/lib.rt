//! Tests of the program's replays, judgements and reports, with input and output in memory.
//!
//! The crate has no functions besides its tests and their helpers, so nothing else in it is proved.
#![tactic(auto)]

#[cfg(test)]
mod tests;
