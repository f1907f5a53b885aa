//! A set of numbers that is kept as ranges: consecutive numbers share one range and its memory.
//!
//! Two ranges of a [`NumberSet`] never touch. A number that is added is merged with the range that ends just before
//! that number and with the range that begins just after that number.
#![tactic(auto)]

mod ranges;
mod set;

pub use set::NumberSet;
