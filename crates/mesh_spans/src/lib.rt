//! The span index: all virtual spans, the group of each span, and the record of each object.
//!
//! A span is a run of virtual pages of one size class, cut into slots. A group is one physical span with its members,
//! which are the virtual spans that are mapped to it. In contracts, the index consists of two lists: the spans, and the
//! groups with the content of their slots. The counts over all groups are updated as groups change.
#![tactic(auto)]

mod extent;
mod filing;
mod fullness;
mod group;
mod groups;
mod index;
mod names;
mod owners;
mod pairs;
mod totals;

pub use group::{Group, MAX_MEMBERS, MAX_SPAN_PAGES};
pub use index::Spans;
pub use names::{Slot, Span};
pub use totals::Totals;
