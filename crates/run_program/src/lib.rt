//! The runs of the program `meshrun` over any devices, with their exit statuses.
//!
//! Nothing in this crate opens a file or prints by itself. The program passes in a source for the file, sinks for
//! standard output and standard error, and the arguments that `run_command_line` reads from the words of the command
//! line. The program exits with the returned status.
//!
//! An `AllocError` means that an allocation failed.
#![tactic(auto)]

mod certificate;
mod check;
mod check_error;
mod conditions;
mod criteria;
mod devices;
mod dispatch;
mod draw;
mod explain;
mod explore;
mod fault_line;
mod kept;
mod live;
mod pipes;
mod printed;
mod progress;
mod runs;
mod savings;
mod shuffle_words;
pub mod status_laws;
mod steps;
mod threads;
mod threads_error;
mod unopened;
mod verdict;
mod verdict_error;
pub mod word_laws;

pub use certificate::certificate_run;
pub use check::check_run;
pub use check_error::CheckError;
pub use criteria::Criteria;
pub use devices::Devices;
pub use dispatch::{Ended, run};
pub use draw::{draw_html_run, draw_run, draw_text_run};
pub use explain::{Found, explain_run, explain_savings_run};
pub use explore::explore_run;
pub use history_judge::Begun;
pub use kept::Kept;
pub use live::live_run;
pub use pipes::{Hushed, Piped};
pub use progress::Progress;
pub use run_command_line::{
    Args, CheckArgs, Conditions, DrawArgs, ExploreArgs, FiguresForm, LiveArgs, MeshPair, Meshes,
    PacedArgs, Request, RoundsAsked, SavingsArgs, ShownArgs, StepsArgs, Stop, Texts, ThreadsArgs,
    Told, arguments, request, unread_words,
};
pub use runs::{replay_echo_run, replay_history_run, replay_run, stop_run, unopened_run};
pub use savings::savings_run;
pub use shuffle_words::words;
pub use states_reach::{Unwatched, Watch};
pub use text_devices::{DeviceFault, Input, Output, Sink, Source, TextSource};
pub use text_reasons::TextKind;
pub use threads::{threads_history_run, threads_run, threads_stopped};
pub use threads_error::ThreadsError;
pub use unopened::unopened_reason_run;
pub use verdict::expected_run;
pub use verdict_error::VerdictError;
