//! Tests of explorations of meshes that are made by other lists of steps.
//!
//! The crate contains only tests, so only tests are proved in it.
#![tactic(auto)]

#[cfg(test)]
mod tests;
