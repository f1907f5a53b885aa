//! The ten size classes: the class of a request, and the pages and slots of a span of each class.
//!
//! In contracts, a `Class` is its slot size in bytes. The table of the classes is defined in `model_words`.
#![tactic(auto)]

mod classes;

pub use classes::{Class, all_classes, class_of};
pub use model_words::Refusal;
