//! The program's judgement of a recorded history.
ghost use Rattle.std.specs.Prelude.{◌≡◌, ◌≤◌, false, IfErr, IfOk, OnOk};
ghost use Rattle.std.specs.Io.KnownBytes.{prepend_known};
ghost use Rattle.model_jobs.specs.Texts.{ended};
ghost use Rattle.run_program.specs.Checks.{EndsCheck, HasFailedCheck, HasStoppedCheck, HasToldVerdict, check_error_text, judgement_status, status_of_check};
ghost use Rattle.run_program.specs.Runs.{IsSound};

use crate::Devices;
use crate::check_error::CheckError;
use crate::fault_line::{Line, line_of, number_line};
use crate::runs::{status_of, tell};
use history_judge::{Begun, CallVerdict, Judgement, Verdict, judge, judgement_line};
use run_command_line::status::{DONE, FAULTY, NEGATIVE, UNDECIDED};
use std::alloc::Global;
use text_devices::{Sink, Source, write_lines};

/// Judges the recorded history in the input, and writes the line of the verdict to the output. If there is no verdict,
/// writes the reason to `errors`. Returns the exit status. A history of overlapping calls isn't decided if an object
/// has more than `most` configurations at the end of a call.
///
/// The status is:
///
/// - 0 with the line `legal N entries` or `linearizable N entries`;
/// - 3 with the line of a negative verdict;
/// - 4 with the line of a history that isn't decided;
/// - 1 with the line `read fault`, `write fault` or `out of memory` in `errors`;
/// - 2 with the line `line L: KIND` if the text has a fault, or `line L: ORDER` if a call is out of order.
///
/// If a line for `errors` can't be written, the status is the same.
pub fn check_run<I: Source + Drop, O: Sink, E: Sink>(
    alloc: Global,
    most: u32,
    devices: &mut Devices<Begun<I>, O, E>,
) -> u8
    requires { IsSound devices.old }
    ensures { EndsCheck most devices.old devices.new result }
{
    match write_verdict(alloc, most, &mut devices.input, &mut devices.output) {
        Ok(status) => status,
        Err(error) => {
            tell(&mut devices.errors, check_line_of(error).as_slice());
            status_of_check(error)
        }
    }
}

/// Judges the history in the input, writes the verdict, and returns the exit status of the verdict.
pub(crate) fn write_verdict<I: Source + Drop, O: Sink>(
    alloc: Global,
    most: u32,
    input: &mut Begun<I>,
    output: &mut O,
) -> Result<u8, CheckError>
    requires input { I.has_failed input.old.inner ≡ false }
    requires output { O.has_failed output.old ≡ false }
    ensures ok { OnOk result ((I.has_failed input.new.inner ≡ false) × (O.has_failed output.new ≡ false)) }
    ensures told { IfOk result
        (HasToldVerdict most (prepend_known input.old.begun.items (I.remaining input.old.inner))
        (prepend_known input.new.begun.items (I.remaining input.new.inner)) (O.written output.old)
        (O.written output.new)) }
    ensures small { IfOk result (λ status. status ≤ 4) }
    ensures stopped { IfErr result
        (HasStoppedCheck most (prepend_known input.old.begun.items (I.remaining input.old.inner))
        (prepend_known input.new.begun.items (I.remaining input.new.inner)) (O.written output.old)
        (O.written output.new)) }
    ensures failed { IfErr result (HasFailedCheck (I.has_failed input.new.inner) (O.has_failed output.new)) }
{
    let judgement = judge(alloc, input, most as usize)?;
    let line = judgement_line(alloc, &judgement, most)?;
    write_lines(output, line.as_slice())?;
    Ok(status_of_judgement(&judgement))
}

/// The exit status of a judgement.
pub(crate) fn status_of_judgement(judgement: &Judgement) -> u8
    ensures status { result ≡ judgement_status judgement.now }
    ensures small { result ≤ 4 }
{
    match judgement {
        Judgement::InOrder(Verdict::Legal(_)) => DONE,
        Judgement::InOrder(Verdict::Wrong(_, _)) => NEGATIVE,
        Judgement::Overlapping(CallVerdict::Linearizable(_)) => DONE,
        Judgement::Overlapping(CallVerdict::Misused(_, _)) => NEGATIVE,
        Judgement::Overlapping(CallVerdict::Flawed(_, _)) => NEGATIVE,
        Judgement::Overlapping(CallVerdict::Undecided(_, _)) => UNDECIDED,
    }
}

/// The line of an error, with a line end.
pub(crate) fn check_line_of(error: CheckError) -> Line
    ensures { result.items ≡ ended (check_error_text error) }
{
    match error {
        CheckError::Replay(error) => line_of(error),
        CheckError::Order(line) => number_line(b"line ", line, b": ORDER"),
    }
}

/// The exit status if a history isn't judged.
pub(crate) fn status_of_check(error: CheckError) -> u8
    ensures { result ≡ status_of_check error }
{
    match error {
        CheckError::Replay(error) => status_of(error),
        CheckError::Order(_) => FAULTY,
    }
}
