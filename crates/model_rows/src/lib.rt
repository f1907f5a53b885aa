//! The worked examples as theorems: what the definitions give for golden files under `jobs/golden`.
//!
//! Each function does nothing. Its clauses state that a file is replayed to the lines that were worked out by hand.
//! The one file of more than 1 MiB has no clause.
//! Written by `tools/gen/rows.py`.
#![tactic(auto)]

mod rows;

pub use rows::{
    abandoned, cancels, faults, interleavings, mutators, searches, small_steps, version_2,
    whole_meshes,
};
