//! Meshes that are made by other lists of steps, on a heap with page map, protection and bytes.
//!
//! The crate contains the definitions: what a step does, what a command answers, which moves there are, and which
//! states have a fault. The only code is that of the types which the definitions share with the programs.
#![tactic(auto)]

mod fault;
pub mod laws;
mod page_map;
mod piece;
mod range;
mod seen;
mod spot;
mod steps;
mod timing;
mod tried;

pub use fault::{Fault, FaultKind};
pub use page_map::{Access, Entry, Protection};
pub use piece::Piece;
pub use range::Range;
pub use seen::Seen;
pub use spot::Spot;
pub use steps::{Part, Step};
pub use timing::{Making, Timing};
pub use tried::Tried;
