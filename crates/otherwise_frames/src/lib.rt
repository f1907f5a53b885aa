//! What a picture shows of a state in which meshes are made by a given list of steps.
//!
//! An `AllocError` means that an allocation failed.
#![tactic(auto)]

mod copies;
mod frames;
mod rows;

pub use frames::frame_of;
