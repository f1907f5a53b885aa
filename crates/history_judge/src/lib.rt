//! The judgement of a recorded history, of calls in the order of their effects or of calls that overlap.
//!
//! A `Begun` source reports whether its text begins with certain bytes, and consumes nothing of the text. `judge` tests
//! in this way whether the first line is `history 2`. If so, it passes the text to the judge `history_overlaps`, and
//! otherwise to `history_in_order`. `ordered_history` writes the calls of a `history 2` in an order that explains them.
//!
//! An `AllocError` means that an allocation failed.
#![tactic(auto)]

mod begun;
mod flaw_texts;
mod judging;
mod order_faults;
mod ordered;
mod texts;

pub use begun::Begun;
pub use history_in_order::Verdict;
pub use history_overlaps::CallVerdict;
pub use history_reading::CallError;
pub use judging::{Judgement, judge};
pub use order_faults::OrderFault;
pub use ordered::ordered_history;
pub use texts::judgement_line;
