//! Reads the command line of the program `meshrun`.
//!
//! `request` reads the words with `clap`. It returns the subcommand with its arguments (`Args`), and what the arguments
//! don't contain (`Request`), or the exit status and the text of a command line that runs no subcommand (`Stop`).
//! `arguments` returns the arguments alone. Nothing here opens a file or prints.
#![tactic(auto)]

mod check;
mod check_args;
mod clap_command;
mod command_line;
mod conditions;
mod draw;
mod draw_args;
mod draw_steps;
mod explore;
mod explore_args;
mod faults;
mod live;
mod live_args;
mod mesh_texts;
mod meshes;
mod options;
mod replay;
mod requested;
mod savings;
mod savings_args;
pub mod status;
mod stop;
mod texts;
mod threads;
mod threads_args;
mod told;
mod values;

pub use check_args::CheckArgs;
pub use command_line::{Args, arguments, request};
pub use conditions::Conditions;
pub use draw_args::DrawArgs;
pub use explore_args::{ExploreArgs, ShownArgs, StepsArgs, Told};
pub use explore_interleavings::MeshPair;
pub use live_args::LiveArgs;
pub use meshes::Meshes;
pub use requested::Request;
pub use savings_args::{FiguresForm, RoundsAsked, SavingsArgs};
pub use stop::{Stop, unread_words};
pub use texts::Texts;
pub use threads_args::{PacedArgs, ThreadsArgs};
