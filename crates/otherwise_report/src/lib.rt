//! Explores a job whose meshes are made by a list of steps, and reports or draws what goes wrong, with a shortest plan.
//!
//! An `AllocError` means that an allocation failed.
#![tactic(auto)]

mod captions;
mod client;
mod ends;
mod errors;
mod fault_text;
mod finding;
pub mod laws;
mod list_fault;
mod nearest;
mod picture;
mod plan_text;
mod points;
mod report;
mod run;
mod start;
mod step_list;
mod step_words;
mod timing;
mod whole;

pub use errors::StepsError;
pub use list_fault::ListFault;
pub use picture::PictureOptions;
pub use run::{Form, StepsOptions, explore_steps};
