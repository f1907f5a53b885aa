//! The reasons why a run of scripts in threads stops.
ghost use Rattle.std.specs.Prelude.{◌≡◌};
ghost use Rattle.run_program.specs.Threads.{stop_of};
ghost use Rattle.run_program.specs.declared.threads_error.ThreadsError.{ThreadsError};
ghost use Rattle.text_devices.specs.declared.faults.ReplayError.{ReplayError};

use mesh_shared::RunError;
use std::alloc::AllocError;
use text_devices::ReplayError;
use thiserror::Error;

/// The reason why a run of scripts in threads stopped before its whole text was written.
#[derive(Clone, Copy, Debug, PartialEq, Eq, Error)]
pub enum ThreadsError {
    /// A fault that stops a replay too: the input failed, its text is no job file, an allocation failed, or the output
    /// failed. If the output failed, a beginning of the text was written; otherwise nothing was.
    #[error("{0}")]
    Replay(ReplayError),
    /// The file's history has fewer entries than its scripts have commands. Nothing was run.
    #[error("history too short")]
    TooShort,
    /// A thread couldn't be started, or a searcher's answer isn't the one that was asked for. Nothing was written.
    #[error("thread fault")]
    Thread,
    /// The journal was full, or `finish` has any fault, including out of memory inside `finish`. Nothing was written.
    #[error("run fault")]
    Run,
}

impl From<ReplayError> for ThreadsError {
    ghost from_gives = { λ replay error. error ≡ ThreadsError.Replay replay };

    fn from(error: ReplayError) -> ThreadsError {
        ThreadsError::Replay(error)
    }
}

impl From<AllocError> for ThreadsError {
    ghost from_gives = { λ _ error. error ≡ ThreadsError.Replay ReplayError.Memory };

    fn from(_refused: AllocError) -> ThreadsError {
        ThreadsError::Replay(ReplayError::Memory)
    }
}

impl From<RunError> for ThreadsError {
    ghost from_gives = { λ run error. error ≡ stop_of run };

    fn from(error: RunError) -> ThreadsError {
        match error {
            RunError::Memory => ThreadsError::Replay(ReplayError::Memory),
            RunError::Thread => ThreadsError::Thread,
            RunError::History | RunError::Finish(_) => ThreadsError::Run,
        }
    }
}
