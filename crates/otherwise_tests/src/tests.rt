//! Tests of explorations of meshes that are made by other lists of steps.

mod cases;
mod explorations;
mod rule;
mod runs;
