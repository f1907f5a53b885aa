//! Tests of a book that threads share: of its lock, and of scripts on threads that run next to meshers.
//!
//! The crate has no function besides its tests and their helpers, so nothing else in it is proved.
#![tactic(auto)]

#[cfg(test)]
mod tests;
