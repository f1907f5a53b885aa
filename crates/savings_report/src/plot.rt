//! A plot of the pages of two heaps, one of which meshes, over the calls of a recorded program.
mod axes;
mod captions;
mod courses;
mod curves;
mod ends;
mod intervals;
mod legend;
mod lines;
mod plotted;
mod readings;
mod scale;
mod spans;
mod style;
mod words;

pub use captions::Caption;
pub use courses::Course;
pub use curves::Curves;
pub use spans::Interval;
