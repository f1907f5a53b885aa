//! Reports an exploration: its answers and outcomes as values, and as text.
//!
//! The answers, phases and outcomes of the reached states are gathered into a `Listing`. It is proved to contain all of
//! them and nothing else. `explore` reads a job, explores the commands that its plan leaves, and writes the text of the
//! listing. `summary` returns this text:
//!
//! - for each command its answers, and for each answer the phases of the meshes in which the command gets it
//!   (`answer_text`, `ranges`);
//! - the outcomes, each with the answers of all workers (`told_text`), a plan that leads to the outcome
//!   (`outcome_text`, `plan_text`), and the state after this plan (`end_text`, `phase_text`).
//!
//! `lines` finds the plan lines that lead to a state. If the lines that lead to the state of an outcome are added to
//! the plan of the job, the job file leads to the outcome. If the lines that lead to some state are added, and then the
//! line of a worker, the job file ends with the answer that this worker gets in the state's phases of the meshes
//! (`shown`). `wanted` selects the text that is reported.
//!
//! An `AllocError` means that an allocation failed.
#![tactic(auto)]

mod answer_text;
mod end_text;
mod ends;
mod errors;
mod job_lines;
mod lines;
mod listing;
mod listing_text;
mod notes;
mod outcome_text;
mod outcomes;
mod phase;
mod phase_text;
mod plan_text;
mod ranges;
mod run;
mod settings;
mod shown;
mod sorted;
mod told_text;
mod wanted;

pub use answer_text::commands_text;
pub use end_text::add_end;
pub use errors::ExploreError;
pub use listing::{Exploration, Listing, explored_and_listed, listed};
pub use listing_text::summary;
pub use notes::{Note, PhaseAt};
pub use outcome_text::{add_outcome, printed_order};
pub use outcomes::Outcome;
pub use phase::{LastStep, phase_at};
pub use run::{ExploreOptions, explore};
pub use told_text::add_told;
pub use wanted::{Shown, Wanted};
