//! The program's runs.
ghost use Rattle.std.specs.Prelude.{◌≡◌, ◌<◌, ◌≤◌, ◌||◌, false, is_err};
ghost use Rattle.std.specs.Cow.{cow_str_bytes};
ghost use Rattle.std.specs.Io.KnownBytes.{Keeps};
ghost use Rattle.model_jobs.specs.Texts.{ended};
ghost use Rattle.run_program.specs.Runs.{Ends, HasTold, IsSound, error_text};
ghost use Rattle.run_program.specs.Seen.{seen};
ghost use Rattle.run_program.specs.Status.{status_of_error};
ghost use Rattle.mesh_text.specs.Echo.{HasEchoed, HasStoppedEcho};
ghost use Rattle.mesh_text.specs.Recorded.{HasReplayedRecorded, HasStoppedRecorded};
ghost use Rattle.mesh_text.specs.Replay.{HasReplayed, HasStopped};
ghost use Rattle.text_devices.specs.declared.faults.ReplayError.{ReplayError};

use crate::fault_line::line_of;
use crate::{Devices, Stop};
use mesh_text::{replay, replay_echoed, replay_recorded};
use run_command_line::status::{DONE, FAILED, FAULTY};
use std::alloc::Global;
use text_devices::{ReplayError, Sink, Source, write_all};

/// Replays the job in the input, and writes the answers to the output. If the run stops with an error, writes the
/// error's line to `errors`. Returns the exit status.
///
/// The status is 0 if everything was written. It is 1 with the line `read fault`, `write fault` or `out of memory`, and
/// 2 with the line `line N: KIND` if the job's text has a fault. If the line can't be written, the status is the same.
pub fn replay_run<I: Source, O: Sink, E: Sink>(
    alloc: Global,
    input: &mut I,
    output: &mut O,
    errors: &mut E,
) -> u8
    requires input { I.has_failed input.old ≡ false }
    requires output { O.has_failed output.old ≡ false }
    ensures { Ends HasReplayed HasStopped
        (seen (I.remaining input.old) (O.written output.old) (E.written errors.old) (I.has_failed input.old)
        (O.has_failed output.old) (E.has_failed errors.old))
        (seen (I.remaining input.new) (O.written output.new) (E.written errors.new) (I.has_failed input.new) (O.has_failed output.new) (E.has_failed errors.new)) result }
{
    let outcome = replay(alloc, input, output);
    finished(errors, outcome)
}

/// Replays the job in the input, and writes the job's journal to the output as a recorded history. If the run stops
/// with an error, writes the error's line to `errors`. Returns the exit status.
///
/// The exit status and the line in `errors` are those of `replay_run`. Nothing is written to the output before the plan
/// is over.
pub fn replay_history_run<I: Source, O: Sink, E: Sink>(
    alloc: Global,
    devices: &mut Devices<I, O, E>,
) -> u8
    requires { IsSound devices.old }
    ensures { Ends HasReplayedRecorded HasStoppedRecorded devices.old devices.new result }
{
    let outcome = replay_recorded(alloc, &mut devices.input, &mut devices.output);
    finished(&mut devices.errors, outcome)
}

/// Replays the job in the input, and writes each line of its plan with its answer (`replay_echoed`). If the run stops
/// with an error, writes the error's line to `errors`. Returns the exit status.
///
/// The exit status and the line in `errors` are those of `replay_run`.
pub fn replay_echo_run<I: Source, O: Sink, E: Sink>(
    alloc: Global,
    devices: &mut Devices<I, O, E>,
) -> u8
    requires { IsSound devices.old }
    ensures { Ends HasEchoed HasStoppedEcho devices.old devices.new result }
{
    let outcome = replay_echoed(alloc, &mut devices.input, &mut devices.output);
    finished(&mut devices.errors, outcome)
}

/// Writes the text of a stop, and returns the stop's exit status. Help is written to the output, and any other text to
/// `errors`.
///
/// If the text can't be written, the status is the same.
pub fn stop_run<O: Sink, E: Sink>(stop: &Stop, output: &mut O, errors: &mut E) -> u8
    ensures status { result ≡ stop.now.status }
    ensures help { result ≡ 0
        → HasTold (O.has_failed output.new) (O.written output.old) (O.written output.new) (cow_str_bytes stop.now.text)
        × Keeps (E.written errors.old) (E.written errors.new) }
    ensures fault { 0 < result
        → HasTold (E.has_failed errors.new) (E.written errors.old) (E.written errors.new) (cow_str_bytes stop.now.text)
        × Keeps (O.written output.old) (O.written output.new) }
{
    let text = stop.text.as_str().as_bytes();
    if stop.status == DONE {
        tell(output, text);
    } else {
        tell(errors, text);
    }
    stop.status
}

/// Writes `read fault` to `errors`, because the file can't be opened, and returns the exit status.
pub fn unopened_run<E: Sink>(errors: &mut E) -> u8
    ensures status { result ≡ 1 }
    ensures told { HasTold (E.has_failed errors.new) (E.written errors.old) (E.written errors.new)
        (ended (error_text ReplayError.Read)) }
{
    tell_error(errors, ReplayError::Read);
    FAILED
}

/// Writes to `errors` why a run stopped, if it did, and returns the exit status: 0 if the run was done. If the line
/// can't be written, the status is the same.
pub(crate) fn finished<E: Sink>(errors: &mut E, outcome: Result<(), ReplayError>) -> u8
    ensures done { result ≡ 0 → outcome ≡ Ok tt }
    ensures untold { result ≡ 0 → Keeps (E.written errors.old) (E.written errors.new) }
    ensures stopped { 0 < result → (error : ReplayError) × (outcome ≡ Err error) × (result ≡ status_of_error error)
        × HasTold (E.has_failed errors.new) (E.written errors.old) (E.written errors.new) (ended (error_text error)) }
    ensures small { result ≤ 2 }
{
    match outcome {
        Ok(()) => DONE,
        Err(error) => {
            tell_error(errors, error);
            status_of(error)
        }
    }
}

/// Writes the line of an error.
pub(crate) fn tell_error<E: Sink>(errors: &mut E, error: ReplayError)
    ensures { HasTold (E.has_failed errors.new) (E.written errors.old) (E.written errors.new)
        (ended (error_text error)) }
{
    tell(errors, line_of(error).as_slice());
}

/// Writes a text for a person. A failure to write it is ignored, because there is no other device to report it on.
pub(crate) fn tell<S: Sink>(sink: &mut S, text: &[u8])
    ensures { HasTold (S.has_failed sink.new) (S.written sink.old) (S.written sink.new) text.now }
{
    let _ = write_all(sink, text);
}

/// The exit status of a replay that stopped.
pub(crate) fn status_of(error: ReplayError) -> u8
    ensures { result ≡ status_of_error error }
{
    match error {
        ReplayError::Read | ReplayError::Write | ReplayError::Memory => FAILED,
        ReplayError::Text(_) => FAULTY,
    }
}
