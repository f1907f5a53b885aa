//! The figures of a run on two heaps, one of which meshes, and their table.
mod figures;
mod levels;
mod lines;
mod measured;
mod moments;
mod pages;
mod rounding;
mod samples;
mod words;

pub use figures::Figures;
pub use levels::total_pages;
pub use moments::{Moment, keep_most_saved};
pub use rounding::whole_pages;
pub use samples::{CLASSES, Counts, Sample, Window};
