//! The occupancy bitmap of a span: a set of slot numbers below a width of 1 to 256.
//!
//! The set is four words of 64 bits. The set allocates nothing, and counts its elements by population count. A contract
//! sees the set as a list of booleans, one per slot number, whose length is the width. No crate above uses masks or
//! shifts.
#![tactic(auto)]

mod bitmap;

pub use bitmap::Bits;
