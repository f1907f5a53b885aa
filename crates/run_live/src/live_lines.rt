//! Reads the lines of a live session, each field by field from left to right.
ghost use Rattle.std.specs.Prelude.{◌≡◌, ◌≤◌, false, true, codes, Err, Ok, IfErr, IfOk};
ghost use Rattle.std.specs.List.{list_any};
ghost use Rattle.model_words.specs.Commands.{IsInRange};
ghost use Rattle.model_jobs.specs.JobFiles.{are_same, is_empty};
ghost use Rattle.text_fields.specs.Lines.{line_fields, texts};
ghost use Rattle.run_live.specs.LiveLines.{IsSearch, IsValidLive, attempt_in, attempt_of, call_in, is_no_command, live_line, live_of, live_of_fields, read_live};
ghost use Rattle.text_job.specs.Reading.{IsFaultOfStep};
ghost use Rattle.text_job.specs.declared.faults.LineError.{LineError};

use model_words::{Command, FaultKind, Version};
use std::alloc::Global;
use text_fields::lines::{MAX_LINE_BYTES, check_bytes, fields_of, is_word};
use text_fields::numbers::number32;
use text_job::{LineError, PlanLine, command_of, plan_line};

/// One line of a live session, which is answered at once: an attempt of a worker, or a call of the mesher.
#[derive(Drop)]
pub enum LiveLine {
    /// `Attempt(w, command)`: worker `w` attempts this command now.
    Attempt(u32, Command),
    /// A call of the mesher, as in a plan of version 2.
    Call(PlanLine),
}

/// Reads a line of a live session with `workers` workers: `run W COMMAND`, or any line of a plan of version 2 except
/// `run W`. The line is passed without a line end.
///
/// Each command is spelt as in a script of version 2. The error is the first that applies, in this order: LONG_LINE
/// (more than 1,024 bytes), BYTE, WORD, the fault of the leftmost field that can't be read. `Memory` is an allocation
/// failure, which is possible only for a `pair` line.
pub fn read_live_line(alloc: Global, workers: u32, line: &[u8]) -> Result<LiveLine, LineError>
    requires { 1 ≤ workers }
    ensures ok { IfOk result (λ asked. live_line workers line.now ≡ Ok (live_of asked)) }
    ensures in_range { IfOk result (λ asked. IsValidLive workers (live_of asked)) }
    ensures err { IfErr result (IsFaultOfStep (live_line workers line.now)) }
    ensures memory { result ≡ Err LineError.Memory → IsSearch (line_fields line.now) }
{
    check_bytes(line, MAX_LINE_BYTES)?;
    let fields = fields_of(line)?;
    line_of_fields(alloc, workers, fields.as_slice())
}

/// Reads a line of a session from its fields. The first field is the line's word.
fn line_of_fields(alloc: Global, workers: u32, fields: &[&[u8]]) -> Result<LiveLine, LineError>
    requires some { 1 ≤ workers }
    requires filled { list_any is_empty (texts fields.now) ≡ false }
    ensures ok { IfOk result (λ asked. live_of_fields workers (texts fields.now) ≡ Ok (live_of asked)) }
    ensures in_range { IfOk result (λ asked. IsValidLive workers (live_of asked)) }
    ensures err { IfErr result (IsFaultOfStep (live_of_fields workers (texts fields.now))) }
    ensures memory { result ≡ Err LineError.Memory → IsSearch (texts fields.now) }
{
    let [word, fields @ ..] = fields else {
        return Err(LineError::Kind(FaultKind::Word));
    };
    if is_word(*word, b"run") {
        let attempt = attempt_of(alloc, workers, fields)?;
        return Ok(attempt);
    }
    call_of(alloc, workers, *word, fields)
}

/// Reads a line of a plan of version 2 as a call of the mesher.
fn call_of(
    alloc: Global,
    workers: u32,
    word: &[u8],
    fields: &[&[u8]],
) -> Result<LiveLine, LineError>
    requires { 1 ≤ workers }
    ensures ok { IfOk result (λ asked. call_in workers word.now (texts fields.now) ≡ Ok (live_of asked)) }
    ensures in_range { IfOk result (λ asked. IsValidLive workers (live_of asked)) }
    ensures err { IfErr result (IsFaultOfStep (call_in workers word.now (texts fields.now))) }
    ensures memory { result ≡ Err LineError.Memory → are_same word.now (codes "pair") ≡ true }
{
    let line = plan_line(alloc, Version::Two, workers, word, fields)?;
    Ok(LiveLine::Call(line))
}

/// Reads `run W COMMAND`, from its fields after `run`.
fn attempt_of(alloc: Global, workers: u32, fields: &[&[u8]]) -> Result<LiveLine, FaultKind>
    requires { 1 ≤ workers }
    ensures value { read_live result ≡ attempt_in workers (texts fields.now) }
    ensures in_range { IfOk result (λ asked. IsValidLive workers (live_of asked)) }
{
    let [worker, word, fields @ ..] = fields else {
        return Err(FaultKind::Word);
    };
    let command = command_of(alloc, Version::Two, *word, fields);
    attempt_at(workers, *worker, command)
}

/// Returns the attempt of a worker at a command. The field `worker` names the worker, and `read` is the result of
/// reading the command from the other fields. The error is the first that applies, in this order: WORD for the command,
/// the fault of the field `worker`, any other fault of the command.
fn attempt_at(
    workers: u32,
    worker: &[u8],
    read: Result<Command, FaultKind>,
) -> Result<LiveLine, FaultKind>
    requires some { 1 ≤ workers }
    requires in_range { IfOk read IsInRange }
    ensures value { read_live result ≡ attempt_of workers worker.now read }
    ensures in_range { IfOk result (λ asked. IsValidLive workers (live_of asked)) }
{
    if is_no_command(&read) {
        return Err(FaultKind::Word);
    }
    let worker = number32(worker, 0, workers - 1)?;
    let command = read?;
    Ok(LiveLine::Attempt(worker, command))
}

/// Whether reading a command failed because of its word, or of the number of its fields.
fn is_no_command(read: &Result<Command, FaultKind>) -> bool
    ensures { result ≡ is_no_command read.now }
{
    match read {
        Err(FaultKind::Word) => true,
        _ => false,
    }
}
