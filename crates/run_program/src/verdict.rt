//! The program's verdict on the outcomes of an exploration.
ghost use Rattle.std.specs.Prelude.{◌≡◌, ◌≤◌, false, true, IfErr, IfOk, OnOk, length};
ghost use Rattle.model_jobs.specs.Texts.{ended};
ghost use Rattle.text_devices.specs.declared.faults.ReplayError.{ReplayError};
ghost use Rattle.run_program.specs.Explores.{EndsVerdict, HasFailedVerdict, HasJudgedBy, HasStoppedVerdict, IsUnreadFor, list_text, option_text, unmatched_text, verdict_status, verdict_text};
ghost use Rattle.run_program.specs.Runs.{HasTold, IsSound};
ghost use Rattle.text_devices.specs.Transfer.{HasReadAll};

use crate::conditions::conditions_of;
use crate::explore::{explore_line_of, explore_status_of};
use crate::fault_line::{Line, line_with, number_line, place_line};
use crate::runs::{status_of, tell, tell_error};
use crate::{Criteria, Devices, ExploreArgs, VerdictError};
use explore_verdict::{Demand, ListFault, Mismatch, Unmatchable, VerdictOptions, verdict};
use run_command_line::status::{DONE, FAULTY, NEGATIVE};
use states_reach::Watch;
use std::alloc::Global;
use text_devices::{Sink, Source, read_all};

/// Reads the text of the expected outcomes. If reading fails, writes the reason to `errors`. The error is then the exit
/// status, which is 1.
pub fn expected_run<I: Source, E: Sink>(
    alloc: Global,
    input: &mut I,
    errors: &mut E,
) -> Result<Vec<u8>, u8>
    requires { I.has_failed input.old ≡ false }
    ensures text { IfOk result (λ text. HasReadAll (I.remaining input.old) (I.remaining input.new) text.items) }
    ensures unread { IfErr result
        (IsUnreadFor (I.has_failed input.new) (E.has_failed errors.new) (E.written errors.old) (E.written errors.new)) }
    ensures status { IfErr result (λ status. status ≡ 1) }
{
    match read_all(alloc, input) {
        Ok(text) => Ok(text),
        Err(error) => {
            tell_error(errors, error);
            Err(status_of(error))
        }
    }
}

/// Explores, and writes whether the outcomes meet the criteria. Returns the exit status.
pub(crate) fn verdict_run<I: Source, O: Sink, E: Sink, W: Watch>(
    alloc: Global,
    args: &ExploreArgs<'_>,
    criteria: &Criteria<'_>,
    devices: &mut Devices<I, O, E>,
    watch: &mut W,
) -> u8
    requires sound { IsSound devices.old }
    requires never { length criteria.now.never.now ≤ 10 }
    requires always { length criteria.now.always.now ≤ 10 }
    requires exists { length criteria.now.exists.now ≤ 10 }
    ensures { EndsVerdict args.now criteria.now devices.old devices.new result }
{
    match write_verdict(
        alloc,
        args,
        criteria,
        &mut devices.input,
        &mut devices.output,
        watch,
    ) {
        Ok(true) => DONE,
        Ok(false) => NEGATIVE,
        Err(error) => {
            tell(
                &mut devices.errors,
                verdict_line_of(error, args.states).as_slice(),
            );
            verdict_status_of(error)
        }
    }
}

/// Writes the verdict, and returns whether the outcomes meet the criteria.
fn write_verdict<I: Source, O: Sink, W: Watch>(
    alloc: Global,
    args: &ExploreArgs<'_>,
    criteria: &Criteria<'_>,
    input: &mut I,
    output: &mut O,
    watch: &mut W,
) -> Result<bool, VerdictError>
    requires input { I.has_failed input.old ≡ false }
    requires output { O.has_failed output.old ≡ false }
    requires never { length criteria.now.never.now ≤ 10 }
    requires always { length criteria.now.always.now ≤ 10 }
    requires exists { length criteria.now.exists.now ≤ 10 }
    ensures ok { OnOk result ((I.has_failed input.new ≡ false) × (O.has_failed output.new ≡ false)) }
    ensures judged { IfOk result (λ well. HasJudgedBy args.now criteria.now well
        (I.remaining input.old) (I.remaining input.new) (O.written output.old) (O.written output.new)) }
    ensures stopped { IfErr result (HasStoppedVerdict args.now criteria.now
        (I.remaining input.old) (I.remaining input.new) (O.written output.old) (O.written output.new)) }
    ensures failed { IfErr result (HasFailedVerdict (I.has_failed input.new) (O.has_failed output.new)) }
{
    let conditions = conditions_of(alloc, criteria)?;
    let options = VerdictOptions {
        meshes: args.meshes.as_slice(),
        cancel: args.cancel,
        states: args.states,
        must_begin: !args.allows_no_mesh,
        conditions: conditions.as_slice(),
    };
    let well = verdict(alloc, input, criteria.expected, output, &options, watch)?;
    Ok(well)
}

/// The line of an error, with a line end.
fn verdict_line_of(error: VerdictError, states: u32) -> Line
    ensures { result.items ≡ ended (verdict_text states error) }
{
    match error {
        VerdictError::Explore(error) => explore_line_of(error, states),
        VerdictError::NoCondition(demand, number) => number_line(
            option_of(demand),
            number,
            b": no condition 'W: ANSWER | ..'",
        ),
        VerdictError::Unmatched(condition) => unmatched_line(condition),
        VerdictError::NoList(fault) => list_line(fault),
    }
}

/// The option of a demand, with a space.
fn option_of(demand: Demand) -> &'static [u8]
    ensures option { result.now ≡ option_text demand }
    ensures short { length result.now ≤ 9 }
{
    match demand {
        Demand::Never => b"--never ",
        Demand::Always => b"--always ",
        Demand::Exists => b"--exists ",
    }
}

/// The line, with a line end, for a condition whose pattern no outcome can match.
fn unmatched_line(condition: Unmatchable) -> Line
    ensures { result.items ≡ ended (unmatched_text condition) }
{
    let why: &[u8] = match condition.mismatch {
        Mismatch::NoWorker => b": the job has no such worker",
        Mismatch::NoAnswer => b": no command has such an answer",
        Mismatch::TooManyAnswers => b": more answers than commands",
    };
    number_line(option_of(condition.demand), condition.number, why)
}

/// The line, with a line end, for a text that is no list of outcomes.
fn list_line(fault: ListFault) -> Line
    ensures { result.items ≡ ended (list_text fault) }
{
    match fault {
        ListFault::CarriageReturn(line) => {
            place_line(b"--expect: line ", line, b": a carriage return")
        }
        ListFault::OtherLine(line) => {
            place_line(b"--expect: line ", line, b": no line of a listing")
        }
        ListFault::NoOutcome => line_with(b"--expect: no outcome is listed"),
    }
}

/// The exit status if a verdict isn't given.
fn verdict_status_of(error: VerdictError) -> u8
    ensures { result ≡ verdict_status error }
{
    match error {
        VerdictError::Explore(error) => explore_status_of(error),
        VerdictError::NoCondition(_, _) | VerdictError::Unmatched(_) | VerdictError::NoList(_) =>
            FAULTY,
    }
}
