//! The program's exploration of the commands that are left after a plan.
ghost use Rattle.std.specs.Prelude.{◌≡◌, ◌≤◌, false, IfErr, OnOk, length};
ghost use Rattle.model_jobs.specs.Texts.{ended};
ghost use Rattle.explore_report.specs.Explorations.{HasExplored};
ghost use Rattle.explore_report.specs.declared.errors.ExploreError.{ExploreError};
ghost use Rattle.run_program.specs.Explores.{EndsExplore, EndsListing, HasFailedExplore, HasStoppedExplore, IsShownOf, explore_status, explore_text, meshes_of};
ghost use Rattle.run_program.specs.Runs.{IsSound};

use crate::fault_line::{Line, line_of, line_with, number_line};
use crate::runs::{status_of, tell};
use crate::steps::steps_run;
use crate::verdict::verdict_run;
use crate::{Criteria, Devices, ExploreArgs, ShownArgs, Told};
use explore_report::{ExploreError, ExploreOptions, Shown, Wanted, explore};
use run_command_line::status::{DONE, FAULTY, UNDECIDED};
use states_reach::Watch;
use std::alloc::Global;
use text_devices::{Sink, Source};

/// Explores the commands that are left after the plan of the job in the input, writes the report to the output or a
/// fault to `errors`, and returns the exit status. If a verdict is asked for, it says whether the outcomes meet the
/// criteria `criteria`. If a report on a list of steps is asked for, each mesh is made by these steps. The number of
/// states that were found is reported to `watch`.
///
/// The status is:
///
/// - 0 if everything was written and, for a verdict, the outcomes meet the criteria;
/// - 3 for a verdict if the outcomes don't meet the criteria, and for a report if something is wrong;
/// - 1 with the line `read fault`, `write fault` or `out of memory`;
/// - 4 with the line `too many states: more than N; --states raises the limit`;
/// - 2 with the line `line N: KIND` if the job's text has a fault;
/// - 2 with `no such outcome` or `no such answer in that phase` if the outcome or the answer that was asked for doesn't
///   exist;
/// - 2 with a line that says which option asks for a verdict or a report that can't be given, and why.
///
/// After an error nothing is written to the output, unless the output itself failed. If the line can't be written, the
/// status is the same.
pub fn explore_run<I: Source, O: Sink, E: Sink, W: Watch>(
    alloc: Global,
    args: &ExploreArgs<'_>,
    criteria: &Criteria<'_>,
    devices: &mut Devices<I, O, E>,
    watch: &mut W,
) -> u8
    requires sound { IsSound devices.old }
    requires never { length criteria.now.never.now ≤ 10 }
    requires always { length criteria.now.always.now ≤ 10 }
    requires exists { length criteria.now.exists.now ≤ 10 }
    ensures { EndsExplore args.now criteria.now devices.old devices.new result }
{
    match args.told {
        Told::All => listing_run(alloc, args, &Wanted::All, devices, watch),
        Told::Outcome(number) => {
            listing_run(alloc, args, &Wanted::Outcome(number), devices, watch)
        }
        Told::Answer(shown) => {
            let shown = shown_of(&shown);
            listing_run(alloc, args, &Wanted::Answer(shown), devices, watch)
        }
        Told::Verdict(_) => verdict_run(alloc, args, criteria, devices, watch),
        Told::Steps(asked) => steps_run(alloc, args, &asked, devices, watch),
    }
}

/// The answer that is asked for.
fn shown_of<'a>(shown: &ShownArgs<'a>) -> Shown<'a>
    ensures { IsShownOf shown.now result }
{
    Shown {
        line: shown.line,
        answer: shown.answer.as_bytes(),
        phase: shown.phase.as_bytes(),
    }
}

/// Does what `explore_run` does if no verdict is asked for.
fn listing_run<I: Source, O: Sink, E: Sink, W: Watch>(
    alloc: Global,
    args: &ExploreArgs<'_>,
    wanted: &Wanted<'_>,
    devices: &mut Devices<I, O, E>,
    watch: &mut W,
) -> u8
    requires { IsSound devices.old }
    ensures { EndsListing args.now wanted.now devices.old devices.new result }
{
    match write_listing(
        alloc,
        args,
        wanted,
        &mut devices.input,
        &mut devices.output,
        watch,
    ) {
        Ok(()) => DONE,
        Err(error) => {
            tell(
                &mut devices.errors,
                explore_line_of(error, args.states).as_slice(),
            );
            explore_status_of(error)
        }
    }
}

/// Writes the selected report of an exploration.
fn write_listing<I: Source, O: Sink, W: Watch>(
    alloc: Global,
    args: &ExploreArgs<'_>,
    wanted: &Wanted<'_>,
    input: &mut I,
    output: &mut O,
    watch: &mut W,
) -> Result<(), ExploreError>
    requires input { I.has_failed input.old ≡ false }
    requires output { O.has_failed output.old ≡ false }
    ensures ok { OnOk result ((I.has_failed input.new ≡ false) × (O.has_failed output.new ≡ false)) }
    ensures explored { OnOk result (HasExplored (meshes_of args.now) args.now.cancel args.now.states wanted.now
        (I.remaining input.old) (I.remaining input.new) (O.written output.old) (O.written output.new)) }
    ensures stopped { IfErr result (HasStoppedExplore (meshes_of args.now) args.now.cancel args.now.states
        (I.remaining input.old) (I.remaining input.new) (O.written output.old) (O.written output.new)) }
    ensures failed { IfErr result (HasFailedExplore (I.has_failed input.new) (O.has_failed output.new)) }
{
    let options = ExploreOptions {
        meshes: args.meshes.as_slice(),
        cancel: args.cancel,
        states: args.states,
        wanted: *wanted,
    };
    explore(alloc, input, output, &options, watch)
}

/// The line, with a line end, that reports an error of an exploration. The exploration's limit is `states` states.
pub(crate) fn explore_line_of(error: ExploreError, states: u32) -> Line
    ensures { result.items ≡ ended (explore_text states error) }
{
    match error {
        ExploreError::Replay(error) => line_of(error),
        ExploreError::TooManyStates => number_line(
            b"too many states: more than ",
            states,
            b"; --states raises the limit",
        ),
        ExploreError::NoOutcome => line_with(b"no such outcome"),
        ExploreError::NotShown => line_with(b"no such answer in that phase"),
    }
}

/// The exit status of an exploration that stopped.
pub(crate) fn explore_status_of(error: ExploreError) -> u8
    ensures { result ≡ explore_status error }
{
    match error {
        ExploreError::Replay(error) => status_of(error),
        ExploreError::TooManyStates => UNDECIDED,
        ExploreError::NoOutcome | ExploreError::NotShown => FAULTY,
    }
}
