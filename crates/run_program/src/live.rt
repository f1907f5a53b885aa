//! The program's live session.
ghost use Rattle.run_program.specs.Draws.{EndsLive};
ghost use Rattle.run_program.specs.LiveSizes.{session_sizes};
ghost use Rattle.run_program.specs.Runs.{IsSound};

use crate::runs::finished;
use crate::{Devices, LiveArgs};
use run_live::{Sizes, live};
use std::alloc::Global;
use text_devices::{Sink, Source};

/// Answers the lines of the input, one by one, on a fresh heap of these sizes, and returns the exit status. Each answer
/// is a line of the output, and is written before the next line of the input is answered.
///
/// The status is 0 if every answer was written, up to the line `end` or, without such a line, up to the end of the
/// input. The status is 1 with the line `read fault`, `write fault` or `out of memory` in `errors`. A line that is not
/// valid in a session is answered with its fault, and the run continues.
pub fn live_run<I: Source, O: Sink, E: Sink>(
    alloc: Global,
    args: &LiveArgs,
    devices: &mut Devices<I, O, E>,
) -> u8
    requires { IsSound devices.old }
    ensures { EndsLive (session_sizes args.now) devices.old devices.new result }
{
    let sizes = Sizes {
        pages: args.pages,
        history: args.history,
        workers: args.workers,
    };
    let outcome = live(alloc, &sizes, &mut devices.input, &mut devices.output);
    finished(&mut devices.errors, outcome)
}
