//! A picture of frames of a heap, as one SVG file.
//!
//! A `Frame` is the content of a picture of a heap. The caller passes frames one by one. Each frame is the heap after a
//! line of a plan, and is passed with that line. Frames in a row that look alike share one card (`gathering`, `alike`).
//!
//! A picture's size is written before its first card, so the caller passes all frames twice. The first time they go to
//! a `Measure`, and the second time to the `Picture` that is made from the measure. The picture appends its text to a
//! buffer.
//!
//! `layout` places the parts of a card, and `card` draws it: `pills` draws the lines above a frame, `mesh_bar` its
//! running meshes, `pages` its pages with the help of `parts`, `objects` and `arrows`, and `occupancy` a map in place
//! of them. `lettering` draws all words. `notes` writes a picture's title, and the note below it.
#![tactic(auto)]

mod alike;
mod arrows;
mod card;
mod frame;
mod gathering;
mod layout;
mod legend;
mod lettering;
mod measure;
mod mesh_bar;
mod notes;
mod numbers;
mod objects;
mod occupancy;
mod pages;
mod parts;
mod picture;
mod pills;
mod style;

pub use draw_svg::Text;
pub use frame::{Counts, Frame, Home, Mapping, Mark, Member, MeshProgress, Object, RunningMesh};
pub use gathering::Line;
pub use measure::Measure;
pub use notes::title_of;
pub use picture::{Drawn, Header, Picture};
