//! The outputs of a run whose inputs and outputs are in memory.
ghost use Rattle.std.specs.Prelude.{◌≡◌, false};
ghost use Rattle.run_program.specs.Runs.{IsSound};

use run_program::{Devices, Output, Source};
use std::alloc::Global;

/// The devices of a run: a source, and two outputs in memory.
pub type InMemory<I> = Devices<I, Output<Vec<u8>>, Output<Vec<u8>>>;

/// The outputs of one run of the program, and its exit status.
#[derive(Debug, Drop)]
pub struct Ran {
    /// The exit status.
    pub status: u8,
    /// The bytes that were written to standard output.
    pub output: Vec<u8>,
    /// The bytes that were written to standard error.
    pub errors: Vec<u8>,
}

impl Ran {
    /// The outputs of a run that ended with this status, taken from the run's devices.
    pub fn of<I: Source + Drop>(status: u8, devices: InMemory<I>) -> Ran {
        let (_, output, errors) = devices.into_parts();
        Ran::of_outputs(status, output, errors)
    }

    /// The outputs of a run that ended with this status, given what the run wrote.
    pub fn of_outputs(status: u8, output: Output<Vec<u8>>, errors: Output<Vec<u8>>) -> Ran {
        Ran {
            status,
            output: output.into_inner(),
            errors: errors.into_inner(),
        }
    }

    /// Whether the run wrote exactly these texts and ended with this status.
    pub fn wrote(&self, output: &[u8], errors: &str, status: u8) -> bool {
        self.output.as_slice() == output
            && self.errors.as_slice() == errors.as_bytes()
            && self.status == status
    }

    /// Whether the run ended with this status and wrote exactly this text, to standard error if the status is 2, and
    /// otherwise to standard output. The other output must be empty.
    pub fn told(&self, text: &str, status: u8) -> bool {
        if status == 2 {
            self.wrote(b"", text, status)
        } else {
            self.wrote(text.as_bytes(), "", status)
        }
    }
}

/// Returns devices that read from this source and write to memory.
pub fn in_memory<I: Source>(alloc: Global, input: I) -> InMemory<I>
    requires { I.has_failed input ≡ false }
    ensures { IsSound result }
{
    let output = Output::new(Vec::new(alloc));
    Devices::new(input, output, Output::new(Vec::new(alloc)))
}
