//! Judges recorded histories by the reference memory (called plain memory in the code).
//!
//! `check` judges a history that is read from a device. The verdict is that the history is legal, or the line of the
//! first rejected entry and the reason.
//!
//! The modules, from the bottom up:
//!
//! - `chunks` and `sparse` keep the bytes of one object. Only chunks in which a byte was stored take memory.
//! - `stored`, `maps`, `cells` and `memory` keep the reference memory after the entries so far in trees (`Tracked`),
//!   and run its commands. `faults` defines the errors of a command.
//! - `reasons` defines the reasons for a rejected entry, and `differences` how two answers differ. `judge` compares an
//!   entry with the answer of the reference memory.
//! - `verdicts` defines the verdict, `inputs` finds it entry by entry, and `texts` writes its line. `verdict_laws`
//!   states what a verdict means for the whole text.
//!
//! In contracts, a text is a list of bytes, and a clause about the trees holds for every memory that they represent.
//!
//! An `AllocError` means that an allocation failed.
#![tactic(auto)]

mod cells;
mod chunks;
mod differences;
mod faults;
mod inputs;
mod judge;
mod maps;
mod memory;
mod reasons;
mod sparse;
mod stored;
mod texts;
pub mod verdict_laws;
mod verdicts;

pub use inputs::check;
pub use memory::Tracked;
pub use reasons::{AddressRange, Difference, DifferentByte, LiveRefusal, Overlap, Reason};
pub use texts::verdict_line;
pub use verdicts::Verdict;
