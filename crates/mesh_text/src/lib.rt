//! The replay of a job file into answer lines.
//!
//! `replay` reads a job file from a device, runs the job's plan on a fresh heap, and writes one answer line for each
//! line of the plan. A line with a worker's number is an attempt of this worker at its next command. Any other line is
//! a call of the mesher: a search, a mesh in steps or as a whole, a cancel, a sweep or a report.
//!
//! `replay_echoed` writes each line of the plan with its command before the answer.
//!
//! `replay_recorded` runs the plan too, but writes the journal as a recorded history instead of the answers. `read_job`
//! only reads the job. `Turns` runs a plan line by line.
//!
//! `history_lines` returns the text of a history in which each worker's answers are together. `recorded_history`
//! returns the text of a history whose entries are in order, each with its command.
//!
//! `text_job` defines the job and reads its file, and `text_words` has the words of an answer. In contracts, an input
//! device has the bytes that are left to read, and an output device has the bytes that it has accepted, as far as these
//! bytes are known. Each device also has a flag that is true if a call of the device has failed.
//!
//! An `AllocError` means that an allocation failed.
#![tactic(auto)]

mod answers;
mod echo;
mod histories;
pub mod history_rows;
mod mesher;
mod printed;
mod recorded;
pub mod recording_rows;
mod recordings;
mod run;
mod turns;

pub use answers::add_report;
pub use echo::replay_echoed;
pub use histories::history_lines;
pub use model_words::{Command, FaultKind, MAX_BYTES, Reply, TextFault, Version};
pub use recorded::replay_recorded;
pub use recordings::recorded_history;
pub use run::replay;
pub use text_devices::{
    DeviceFault, Input, Output, ReplayError, Sink, Source, read_some, write_all, write_lines,
};
pub use text_job::{
    Commands, Job, Plan, PlanLine, ReadFault, Script, Scripts, add_longer_job, add_plan_line,
    read_file, read_job,
};
pub use text_words::{add_bytes, add_command, add_decimal, add_refusal, add_reply};
pub use turns::Turns;
