//! The text of frames of a heap: a line for each row of a frame.
//!
//! `add_point` appends the line of a plan with its answer, and behind it the frame of the heap after this line.
//!
//! An `AllocError` means that an allocation failed; a beginning of the text may then be appended.
#![tactic(auto)]

mod point;
mod rows;

pub use draw_picture::Frame;
pub use point::{Point, add_point};
