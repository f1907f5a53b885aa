//! What the heap of a job looks like after each line of its plan: as one SVG file, as text, or as an HTML page.
//!
//! An `AllocError` means that an allocation failed.
#![tactic(auto)]

mod draw_error;
mod forms;
mod pages;
mod painters;
mod points;
mod readings;
mod run;
mod shown;
mod texts;

pub use draw_error::DrawError;
pub use draw_picture::{Counts, Frame, Home, Mapping, Member, Object, RunningMesh};
pub use pages::present;
pub use run::{DrawOptions, draw};
pub use shown::frame_of;
pub use texts::describe;
