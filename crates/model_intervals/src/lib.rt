//! Histories of calls that overlap in time: which orders of effect explain them.
//!
//! `locality_laws` proves that the calls can be judged object by object, and that orders of each object's accesses give
//! an order of all calls. `example_laws` checks the definitions on examples. `completion_laws` is about calls of which
//! some are pending.
#![tactic(auto)]

pub mod completion_laws;
pub mod example_laws;
pub mod locality_laws;
