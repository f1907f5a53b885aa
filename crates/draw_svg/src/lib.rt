//! SVG as data: shapes, the one writer of their text, and a growing text with allocation failures reported at the end.
#![tactic(auto)]

mod drawing;
mod files;
mod shapes;
mod templates;
mod text;
mod writer;

pub use drawing::Shapes;
pub use shapes::{Anchor, Area, Label, Look, Point, Shape, Way};
pub use templates::words_of;
pub use text::Text;
pub use writer::{end_group, write_group, write_path, write_rect, write_words};
