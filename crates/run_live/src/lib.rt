//! A live session: a fresh heap that takes one line at a time and answers each at once.
//!
//! A line is an attempt of a worker at a command, or a call of the mesher as in a plan of version 2. Each answer is the
//! one that the definitions of jobs give, whatever lines came before. A line of any other form is answered with its
//! fault, and changes nothing.
//!
//! An `AllocError` means that an allocation failed.
#![tactic(auto)]

mod answers;
mod idle;
pub mod line_rows;
mod live_lines;
mod run;
mod session;
mod sizes;

pub use live_lines::{LiveLine, read_live_line};
pub use run::live;
pub use session::Session;
pub use sizes::Sizes;
