//! Finds a witness of a wrong answer: a few calls of a history of overlapping calls that no order of effects explains.
//!
//! - `witness_of` (`witnesses`) returns a witness of the flaw that `check_calls` finds, as a text of `history 2`.
//! - `choosing` chooses the calls: the wrong one, and loads before it with the stores whose bytes they can return
//!   (`sights`). What it chooses is checked twice: `is_slice` (`slices`) checks that the calls can be judged by
//!   themselves, and `is_refuted` (`refuting`) that `check_calls` finds the same call wrong among them.
//! - `begun_by_end` (`beginnings`) reads the calls of the text that began before the wrong one ended, and `taken_lines`
//!   (`lines`) writes the lines of the calls that are chosen.
//! - `slice_laws` says why a slice can be judged by itself.
//!
//! An `AllocError` means that an allocation failed.
#![tactic(auto)]

mod beginnings;
mod choosing;
mod lines;
mod refuting;
mod sights;
pub mod slice_laws;
mod slices;
mod witnesses;

pub use witnesses::witness_of;
