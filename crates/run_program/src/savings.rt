//! The program's report on what meshing saves.
ghost use Rattle.std.specs.Prelude.{◌≡◌, ◌≤◌, false, IfErr, IfOk, OnOk};
ghost use Rattle.model_jobs.specs.Texts.{ended};
ghost use Rattle.run_program.specs.Runs.{IsSound};
ghost use Rattle.run_program.specs.Savings.{EndsSavings, HasFailedSavings, HasStoppedSavings, HasWrittenReport, options_of, savings_status, savings_text, used_up_text};
ghost use Rattle.savings_report.specs.declared.errors.SavingsError.{SavingsError};

use crate::fault_line::{Line, line_of, number_line};
use crate::runs::{status_of, tell};
use crate::{Devices, FiguresForm, RoundsAsked, SavingsArgs};
use run_command_line::status::{DONE, FAULTY, UNDECIDED};
use savings_report::{Form, Rounds, SavingsError, SavingsOptions, Settings, Window, Words, report};
use std::alloc::Global;
use text_devices::{Sink, Source, write_lines};

/// Follows the recorded history in the input on two heaps, writes what meshing saves to the output, as a table, a plot
/// or comma-separated values, and returns the exit status. Any fault is written to `errors`. A plot has the name of the
/// file at `path`, which is `-` for standard input.
///
/// The status is 0 with the whole report. The status is 4 if a heap has too few virtual pages left for the `new` of
/// call N. Then the report has the calls before N, and the line is `addresses used up at call N`.
///
/// The status is 1 with the line `read fault`, `write fault` or `out of memory`. The status is 2 with the line `line L:
/// not a history`, or with the line `line L: KIND` if the text has a fault, and the report didn't stop for another
/// reason before this fault. If the line can't be written, the status is the same.
pub fn savings_run<I: Source, O: Sink, E: Sink>(
    alloc: Global,
    path: &str,
    args: &SavingsArgs,
    devices: &mut Devices<I, O, E>,
) -> u8
    requires { IsSound devices.old }
    ensures { EndsSavings (options_of args.now) devices.old devices.new result }
{
    let options = options_of(args);
    match write_report(
        alloc,
        path,
        &mut devices.input,
        &mut devices.output,
        &options,
    ) {
        Ok(None) => DONE,
        Ok(Some(call)) => {
            tell(&mut devices.errors, used_up_line(call).as_slice());
            UNDECIDED
        }
        Err(error) => {
            tell(&mut devices.errors, savings_line_of(error).as_slice());
            savings_status_of(error)
        }
    }
}

/// Returns the options that the arguments ask for: how the history is followed, which calls are reported, and in which
/// form.
pub(crate) fn options_of(args: &SavingsArgs) -> SavingsOptions
    ensures { result ≡ options_of args.now }
{
    SavingsOptions {
        settings: Settings {
            rounds: match args.rounds {
                RoundsAsked::Every(frees) => Rounds::Every(frees),
                RoundsAsked::Share(part) => Rounds::Share(part),
            },
            members: args.members,
            probe: args.probe,
            words: match args.seed {
                Some(seed) => Words::Seeded(seed),
                None => Words::FirstFit,
            },
        },
        window: Window {
            from: args.from,
            to: args.to,
        },
        form: match args.form {
            FiguresForm::Table => Form::Table,
            FiguresForm::Plot => Form::Plot,
            FiguresForm::Csv => Form::Csv,
        },
    }
}

/// Reports on the history in the input, and writes the report. Returns the call for which a heap had too few
/// virtual pages left, if there is such a call.
fn write_report<I: Source, O: Sink>(
    alloc: Global,
    path: &str,
    input: &mut I,
    output: &mut O,
    options: &SavingsOptions,
) -> Result<Option<u32>, SavingsError>
    requires input { I.has_failed input.old ≡ false }
    requires output { O.has_failed output.old ≡ false }
    ensures ok { OnOk result ((I.has_failed input.new ≡ false) × (O.has_failed output.new ≡ false)) }
    ensures written { IfOk result
        (HasWrittenReport options.now (I.remaining input.old) (I.remaining input.new) (O.written output.old)
        (O.written output.new)) }
    ensures stopped { IfErr result
        (HasStoppedSavings options.now (I.remaining input.old) (I.remaining input.new) (O.written output.old)
        (O.written output.new)) }
    ensures failed { IfErr result (HasFailedSavings (I.has_failed input.new) (O.has_failed output.new)) }
{
    let report = report(alloc, path, input, options)?;
    write_lines(output, report.text.as_slice())?;
    Ok(report.used_up_at)
}

/// The line, with a line end, for a call for which a heap had too few virtual pages left.
fn used_up_line(call: u32) -> Line
    ensures { result.items ≡ ended (used_up_text call) }
{
    number_line(b"addresses used up at call ", call, b"")
}

/// The line of an error, with a line end.
fn savings_line_of(error: SavingsError) -> Line
    ensures { result.items ≡ ended (savings_text error) }
{
    match error {
        SavingsError::Replay(error) => line_of(error),
        SavingsError::NotAHistory(line) => number_line(b"line ", line, b": not a history"),
    }
}

/// The exit status of a report that stopped.
fn savings_status_of(error: SavingsError) -> u8
    ensures { result ≡ savings_status error }
{
    match error {
        SavingsError::Replay(error) => status_of(error),
        SavingsError::NotAHistory(_) => FAULTY,
    }
}
