//! A set of numbers below 65,536 that finds its least element at or above a number by reading a handful of words.
//!
//! All memory is allocated when the set is created. In contracts, the set is a finite set of numbers. No crate above
//! uses masks or shifts.
#![tactic(auto)]

mod bin;
mod words;

pub use bin::Bin;
