//! Job files: the lines of a plan and of scripts, the one reader of a whole file, and the writer of a job's text.
//!
//! A job file is text with one statement per line: four header lines, a section of commands for each worker, and a
//! plan. The plan gives the order in which the workers attempt their commands. In contracts, a job is a `Job` of the
//! definitions.
//!
//! `read_file` reads a whole text and returns its job or its first fault. Its contract is the definition of reading,
//! which is about the whole text. The code goes line by line, and keeps the part that was read in a draft. A `Reading`
//! reads a text in pieces, so the whole text need not be in memory. `read_job` reads a job from a device.
//!
//! `command_of` and `plan_line` read a line from its word and its fields. `quick_command` and `quick_line` read the
//! first line of a text in one pass, if the line has one of the frequent forms.
//!
//! `add_longer_job` appends the text of a job's file, and `add_plan_line` that of a line of a plan.
//!
//! An `AllocError` means that an allocation failed.
#![tactic(auto)]

mod command_list;
mod commands;
mod device;
mod draft;
mod faults;
mod job;
mod job_text;
mod plan;
mod plan_lines;
mod plan_text;
mod quick;
mod reader;
mod script;

pub use command_list::Commands;
pub use commands::command_of;
pub use device::read_job;
pub use faults::LineError;
pub use job::{Job, Scripts};
pub use job_text::add_longer_job;
pub use model_words::{Command, FaultKind, TextFault, Version};
pub use plan::{Plan, PlanLine, Search};
pub use plan_lines::plan_line;
pub use plan_text::add_plan_line;
pub use reader::{MAX_FILE_BYTES, Reading, read_file};
pub use script::Script;
pub use text_fields::faults::ReadFault;
