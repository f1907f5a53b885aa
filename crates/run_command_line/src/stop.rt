//! How the program stops if it runs no subcommand.
ghost use Rattle.std.specs.Prelude.{◌≡◌, ◌≢◌, ◌⊎◌};
ghost use Rattle.std.specs.IoError.{error_kind};
ghost use Rattle.std.specs.declared.io.ErrorKind.TheVariants.{OutOfMemory as IoOutOfMemory};
ghost use Rattle.clap.specs.Words.{kind_of};
ghost use Rattle.run_command_line.specs.CommandLine.{IsNoText, IsOutOfMemory, status_of_kind};

use crate::status::{DONE, FAILED, FAULTY};
use clap::Error;
use clap::error::ErrorKind;
use std::alloc::Global;
use std::borrow::CowStr;
use std::io;

/// The exit status and the text of a command line that runs no subcommand: of help, of the version, or of an error.
#[derive(Drop)]
pub struct Stop {
    /// The exit status: 0 for help and the version, 2 for an error in the command line, 1 for an allocation failure.
    pub status: u8,
    /// The text to print, with its line ends. Help and the version go to standard output, errors to standard error.
    pub text: CowStr<'static, Global>,
}

/// Returns the exit status and the text for an error of the system when it returns the words of the command line. The
/// error is an allocation failure, or the words are no UTF-8 text.
pub fn unread_words(error: &io::Error) -> Stop
    ensures memory { error_kind error.now ≡ IoOutOfMemory → IsOutOfMemory result }
    ensures other { error_kind error.now ≢ IoOutOfMemory → IsNoText result }
{
    if error.kind() == io::ErrorKind::OutOfMemory {
        return out_of_memory();
    }
    Stop {
        status: FAULTY,
        text: CowStr::Borrowed("error: the command line is not UTF-8 text\n"),
    }
}

/// Returns the exit status and the text for an error of `clap`. If the text can't be allocated, returns those for an
/// allocation failure.
pub(crate) fn stop_of(alloc: Global, error: &Error) -> Stop
    ensures stop { IsOutOfMemory result ⊎ (result.status ≡ status_of_kind (kind_of error.now)) }
    ensures memory { kind_of error.now ≡ ErrorKind.OutOfMemory → IsOutOfMemory result }
{
    if error.kind() == ErrorKind::OutOfMemory {
        return out_of_memory();
    }
    let status = if error.use_stderr() { FAULTY } else { DONE };
    match error.to_string(alloc) {
        Ok(text) => Stop {
            status,
            text: CowStr::Owned(text),
        },
        Err(_) => out_of_memory(),
    }
}

/// Returns the exit status and the text for an allocation failure.
fn out_of_memory() -> Stop
    ensures { IsOutOfMemory result }
{
    Stop {
        status: FAILED,
        text: CowStr::Borrowed("out of memory\n"),
    }
}
