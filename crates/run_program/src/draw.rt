//! The program's picture of a plan, and the plan's text and page.
ghost use Rattle.std.specs.Prelude.{◌≡◌, ◌<◌, ◌≤◌};
ghost use Rattle.std.specs.Io.KnownBytes.{Keeps};
ghost use Rattle.draw_job.specs.declared.draw_error.DrawError.{DrawError};
ghost use Rattle.model_jobs.specs.Texts.{ended};
ghost use Rattle.run_program.specs.Draws.{EndsDraw, EndsDrawHtml, EndsDrawText, draw_error_text, draw_status};
ghost use Rattle.run_program.specs.Runs.{HasTold, IsSound};

use crate::fault_line::draw_line_of;
use crate::runs::{status_of, tell};
use crate::{Devices, DrawArgs};
use draw_job::{DrawError, DrawOptions, describe, draw, present};
use run_command_line::status::{DONE, FAULTY};
use std::alloc::Global;
use text_devices::{Sink, Source};

/// Draws the plan of the job in the input, and writes the picture to the output. If the run stops with an error, writes
/// the error's line to `errors`. Returns the exit status.
///
/// `title` is the name of the job file. The picture shows the lines of the plan from `args.from` to `args.to`.
///
/// The exit status and the line in `errors` are those of `replay_run`. If the plan ends before line `args.from`, the
/// status is 2, and the line is `the plan ends at line N, before --from M`. Nothing is written to the output then, or
/// if the input failed or its text has a fault.
pub fn draw_run<I: Source, O: Sink, E: Sink>(
    alloc: Global,
    title: &str,
    args: &DrawArgs,
    devices: &mut Devices<I, O, E>,
) -> u8
    requires { IsSound devices.old }
    ensures { EndsDraw title.now args.now devices.old devices.new result }
{
    let options = options_of(title, args);
    let outcome = draw(alloc, &mut devices.input, &mut devices.output, &options);
    draw_finished(&mut devices.errors, outcome, args.from)
}

/// Writes each line of the plan of the job in the input with its answer and the heap after it, from line `args.from` to
/// line `args.to`, as text (`describe`). If the run stops with an error, writes the error's line to `errors`. Returns
/// the exit status.
///
/// The exit status and the line in `errors` are those of `replay_run`. If the plan ends before line `args.from`, the
/// status is 2, and the line is `the plan ends at line N, before --from M`. Nothing is written to the output then, or
/// if the input failed or its text has a fault.
pub fn draw_text_run<I: Source, O: Sink, E: Sink>(
    alloc: Global,
    args: &DrawArgs,
    devices: &mut Devices<I, O, E>,
) -> u8
    requires { IsSound devices.old }
    ensures { EndsDrawText args.now devices.old devices.new result }
{
    let outcome = describe(
        alloc,
        &mut devices.input,
        &mut devices.output,
        args.from,
        args.to,
    );
    draw_finished(&mut devices.errors, outcome, args.from)
}

/// Writes an HTML page that steps through the lines of the plan of the job in the input, from line `args.from` to line
/// `args.to` (`present`). If the run stops with an error, writes the error's line to `errors`. Returns the exit status.
///
/// `name` is the name of the job file. The exit status, the line in `errors` and what is written if the run stops are
/// as for `draw_run`.
pub fn draw_html_run<I: Source, O: Sink, E: Sink>(
    alloc: Global,
    name: &str,
    args: &DrawArgs,
    devices: &mut Devices<I, O, E>,
) -> u8
    requires { IsSound devices.old }
    ensures { EndsDrawHtml name.now args.now devices.old devices.new result }
{
    let (from, to) = (args.from, args.to);
    let outcome = present(
        alloc,
        &mut devices.input,
        &mut devices.output,
        name,
        from,
        to,
    );
    draw_finished(&mut devices.errors, outcome, args.from)
}

/// Writes to `errors` why a run stopped, if it did, and returns the exit status: 0 if the run was done. `from` is the
/// first line that was asked for. If the line can't be written, the status is the same.
fn draw_finished<E: Sink>(errors: &mut E, outcome: Result<(), DrawError>, from: u32) -> u8
    ensures done { result ≡ 0 → outcome ≡ Ok tt }
    ensures untold { result ≡ 0 → Keeps (E.written errors.old) (E.written errors.new) }
    ensures stopped { 0 < result → (error : DrawError) × (outcome ≡ Err error) × (result ≡ draw_status error)
        × HasTold (E.has_failed errors.new) (E.written errors.old) (E.written errors.new)
        (ended (draw_error_text from error)) }
    ensures small { result ≤ 2 }
{
    match outcome {
        Ok(()) => DONE,
        Err(error) => {
            tell(errors, draw_line_of(error, from).as_slice());
            draw_status_of(error)
        }
    }
}

/// The exit status of a run that stopped.
fn draw_status_of(error: DrawError) -> u8
    ensures { result ≡ draw_status error }
{
    match error {
        DrawError::Replay(error) => status_of(error),
        DrawError::PlanEnds(_) => FAULTY,
    }
}

/// The options of a picture.
fn options_of<'a>(title: &'a str, args: &DrawArgs) -> DrawOptions<'a>
    ensures title { result.title.now ≡ title.now }
    ensures from { result.from ≡ args.now.from }
    ensures to { result.to ≡ args.now.to }
    ensures columns { result.columns ≡ args.now.columns }
{
    DrawOptions {
        title,
        from: args.from,
        to: args.to,
        columns: args.columns,
    }
}
