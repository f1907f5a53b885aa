//! The report on a recorded history: the table or the plot of what meshing saves, or the reason why there is none.
//!
//! The modules, from lower to higher: `table` gathers the figures of a run and writes their table, and `plot` draws the
//! plot. `samples` measures the heaps after a call, with the pages that `perfect`
//! keeps, and counts the calls of a run.
//! `gathered` keeps the samples in the form that `options` asks for. `runs` makes each call on the heap that meshes and
//! on the heap that doesn't. `inputs` reads a history from a device and passes its calls to `runs`. `reports` and
//! `errors` define the results, and `laws` contains lemmas about every sample.
//!
//! An `AllocError` means that an allocation failed.
#![tactic(auto)]

mod csv;
mod errors;
mod gathered;
mod inputs;
pub mod laws;
mod options;
mod perfect;
mod plot;
mod reports;
mod runs;
mod samples;
mod table;

pub use errors::SavingsError;
pub use inputs::report;
pub use options::{Form, SavingsOptions};
pub use reports::Report;
pub use savings_replay::{Rounds, Settings, Words};
pub use table::Window;
