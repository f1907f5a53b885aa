//! A running mesh: its two groups, and its progress.
//!
//! The heap and `explore_table::Table` each keep a list of running meshes. In contracts, a running mesh is a `Mesh` of
//! the definitions.
#![tactic(auto)]

mod progress;
mod running;
mod step_order;

pub use progress::Progress;
pub use running::Running;
pub use step_order::{KINDS, MAX_MEMBERS, StepOrder, kind_name, place_of};
