//! Other orders of a mesh's steps: which lists of steps are safe, decided by one walk over the list.
//!
//! `rule` decides a list. Its definition is proved to allow exactly the lists that are safe on a model of pages.
#![tactic(auto)]

mod facts;
pub mod heap_laws;
pub mod merge_laws;
pub mod rule_laws;
mod steps;
pub mod views_laws;
mod walk;
mod wrong;

pub use steps::Step;
pub use walk::rule;
pub use wrong::{Reason, Wrong};
