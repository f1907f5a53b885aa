//! Every public call that users of the library rely on, used once in the form in which it was promised.
//!
//! Each function makes calls whose conditions follow from the function's own conditions, and gives each result its
//! type. A call whose name, parameters, condition, result or variants change is rejected here.
#![tactic(auto)]

pub mod book;
pub mod heap;
pub mod memory;
pub mod pages;
pub mod program;
pub mod search;
pub mod sharing;
pub mod spans;
pub mod texts;
