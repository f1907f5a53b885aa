//! Tests of the small containers: pools, number sets, judges of configurations, bytes of objects.
//!
//! The crate contains only tests, so only tests are proved in it.
#![tactic(auto)]

#[cfg(test)]
mod tests;
