//! Tests of the heap, its meshes and the book, and of the search and the reference memory below them.
//!
//! The crate has no function besides its tests and their helpers, so nothing else in it is proved.
#![tactic(auto)]

#[cfg(test)]
mod tests;
