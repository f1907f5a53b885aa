//! The program's run of scripts in threads.
ghost use Rattle.std.specs.Prelude.{◌≡◌, ◌↔◌, ◌<◌, ◌≤◌, false, IsTrue, is_err, length, map, IfErr, IfOk, OnErr, OnOk};
ghost use Rattle.std.specs.Io.KnownBytes.{Appends};
ghost use Rattle.std.specs.List.{All};
ghost use Rattle.model_jobs.specs.Texts.{ended};
ghost use Rattle.model_words.specs.Commands.{IsInRange};
ghost use Rattle.run_program.specs.Runs.{HasTold, IsSound};
ghost use Rattle.run_program.specs.Seen.{seen};
ghost use Rattle.run_program.specs.Threads.{EndsThreads, HasFailedRun, HasRoom, HasStoppedRun, HasWrittenRun, IsBookOf, IsNoRun, IsPlanOf, IsRunOf, IsTextOfRun, command_count, text_of_run, threads_status, threads_text};
ghost use Rattle.run_program.specs.declared.printed.Printed.{Printed};
ghost use Rattle.run_program.specs.declared.threads_error.ThreadsError.{ThreadsError};
ghost use Rattle.text_devices.specs.Transfer.{AppendsBeginning};
ghost use Rattle.text_devices.specs.declared.faults.ReplayError.{ReplayError};

use crate::fault_line::threads_line_of;
use crate::printed::Printed;
use crate::runs::{status_of, tell};
use crate::shuffle_words::words;
use crate::{Devices, ThreadsArgs, ThreadsError};
use mesh_mutator::Book;
use mesh_shared::{Gate, Limits, MeshPlan, NoGate, Ran, run_within};
use mesh_text::{Command, Commands, Job, Scripts, history_lines, read_job, recorded_history};
use run_command_line::status::{DONE, FAILED, FAULTY};
use run_report::add_run_report;
use std::alloc::{AllocError, Global};
use std::sync::Wait;
use std::thread::Threads;
use text_devices::{ReplayError, Sink, Source, write_all};

/// Runs the scripts of the job in the input, each on a thread of its own while meshers search and mesh. Writes the
/// answers of each worker and the number of all entries to the output. If the run stops with an error, writes the
/// error's line to `errors` instead. Returns the exit status. The file's plan isn't used.
///
/// The status is 0 if everything was written. Nothing is written to the output before all threads have ended. The
/// status is 2, and nothing is run, in two cases:
///
/// - `line N: KIND` if the job's text has a fault;
/// - `history too short` if the file's history has fewer entries than its scripts have commands.
///
/// The status is 1 with one of these lines:
///
/// - `read fault`, `write fault` or `out of memory`;
/// - `thread fault` if a thread couldn't be started or a searcher's answer isn't the one that was asked for;
/// - `run fault` if the journal was full or `finish` has a fault, including an allocation failure inside `finish`.
///
/// If there are several faults, the first in this order is reported: reading, the text, a history too short, the run,
/// writing. If the line can't be written, the status is the same.
pub fn threads_run<R: Threads + Wait + Sync, I: Source, O: Sink, E: Sink>(
    rt: &R,
    alloc: Global,
    input: &mut I,
    output: &mut O,
    errors: &mut E,
    args: &ThreadsArgs,
) -> u8
    requires input { I.has_failed input.old ≡ false }
    requires output { O.has_failed output.old ≡ false }
    ensures { EndsThreads Printed.Answers args.now
        (seen (I.remaining input.old) (O.written output.old) (E.written errors.old) (I.has_failed input.old)
        (O.has_failed output.old) (E.has_failed errors.old))
        (seen (I.remaining input.new) (O.written output.new) (E.written errors.new) (I.has_failed input.new) (O.has_failed output.new) (E.has_failed errors.new)) result }
{
    match run_file(rt, alloc, &NoGate, input, output, args, Printed::Answers) {
        Ok(()) => DONE,
        Err(error) => threads_stopped(errors, error),
    }
}

/// Does the same as `threads_run`, but writes the recorded history of all threads to the output instead of each
/// worker's answers.
pub fn threads_history_run<R: Threads + Wait + Sync, I: Source, O: Sink, E: Sink>(
    rt: &R,
    alloc: Global,
    devices: &mut Devices<I, O, E>,
    args: &ThreadsArgs,
) -> u8
    requires { IsSound devices.old }
    ensures { EndsThreads Printed.History args.now devices.old devices.new result }
{
    printed_run(rt, alloc, &NoGate, devices, args, Printed::History)
}

/// Does the same as `threads_run`, but writes what is asked for to the output, and the threads call `gate` at certain
/// points.
pub(crate) fn printed_run<R: Threads + Wait + Sync, G: Gate + Sync, I: Source, O: Sink, E: Sink>(
    rt: &R,
    alloc: Global,
    gate: &G,
    devices: &mut Devices<I, O, E>,
    args: &ThreadsArgs,
    printed: Printed,
) -> u8
    requires { IsSound devices.old }
    ensures { EndsThreads printed args.now devices.old devices.new result }
{
    let outcome = run_file(
        rt,
        alloc,
        gate,
        &mut devices.input,
        &mut devices.output,
        args,
        printed,
    );
    match outcome {
        Ok(()) => DONE,
        Err(error) => threads_stopped(&mut devices.errors, error),
    }
}

/// Writes to `errors` the line of an error that stopped a run in threads, and returns the exit status: 2 for a fault of
/// the file, otherwise 1. If the line can't be written, the status is the same.
pub fn threads_stopped<E: Sink>(errors: &mut E, error: ThreadsError) -> u8
    ensures status { result ≡ threads_status error }
    ensures told { HasTold (E.has_failed errors.new) (E.written errors.old) (E.written errors.new)
        (ended (threads_text error)) }
{
    tell(errors, threads_line_of(error).as_slice());
    threads_status_of(error)
}

/// Runs the scripts of the job in the input, and writes the text of the run.
fn run_file<R: Threads + Wait + Sync, G: Gate + Sync, I: Source, O: Sink>(
    rt: &R,
    alloc: Global,
    gate: &G,
    input: &mut I,
    output: &mut O,
    args: &ThreadsArgs,
    printed: Printed,
) -> Result<(), ThreadsError>
    requires input { I.has_failed input.old ≡ false }
    requires output { O.has_failed output.old ≡ false }
    ensures ok { OnOk result ((I.has_failed input.new ≡ false) × (O.has_failed output.new ≡ false)) }
    ensures written { OnOk result
        (HasWrittenRun printed args.now (I.remaining input.old) (I.remaining input.new) (O.written output.old)
        (O.written output.new)) }
    ensures stopped { IfErr result
        (HasStoppedRun printed args.now (I.remaining input.old) (I.remaining input.new) (O.written output.old)
        (O.written output.new)) }
    ensures failed { IfErr result (HasFailedRun (I.has_failed input.new) (O.has_failed output.new)) }
{
    let job = read_job(alloc, input)?;
    let text = run_job(rt, alloc, gate, &job, args, printed)?;
    write_text(output, text.as_slice())
}

/// Runs a job's scripts, and returns the text of the run. The error is TooShort, and nothing is run, if the job's
/// history has no room for all commands. Other errors are those of the run.
fn run_job<R: Threads + Wait + Sync, G: Gate + Sync>(
    rt: &R,
    alloc: Global,
    gate: &G,
    job: &Job,
    args: &ThreadsArgs,
    printed: Printed,
) -> Result<Vec<u8>, ThreadsError>
    ensures text { IfOk result (λ text. IsTextOfRun printed args.now job.now.scripts text.items) }
    ensures room { OnOk result (HasRoom job.now) }
    ensures none { IfErr result (IsNoRun job.now) }
{
    if !has_room(&job.scripts, job.history) {
        return Err(ThreadsError::TooShort);
    }
    let ran = run_scripts(rt, alloc, gate, job, args)?;
    let workers = job.scripts.count() as u32;
    let text = text_of(alloc, printed, workers, &ran)?;
    Ok(text)
}

/// Returns the text of a run with this number of workers: each worker's answers, the recorded history, or the answers
/// and what the threads did.
fn text_of(alloc: Global, printed: Printed, workers: u32, ran: &Ran) -> Result<Vec<u8>, AllocError>
    requires { All (λ entry. entry.worker < workers) ran.now.ended.history.items }
    ensures { IfOk result (λ text. text.items ≡ text_of_run printed workers ran.now) }
{
    let history = ran.ended.history.as_slice();
    match printed {
        Printed::Answers => history_lines(alloc, workers, history),
        Printed::History => recorded_history(alloc, history),
        Printed::Report => {
            let mut text = history_lines(alloc, workers, history)?;
            add_run_report(&mut text, ran)?;
            Ok(text)
        }
    }
}

/// Runs a job's scripts on a fresh book, while meshers do what the arguments ask for. Also returns what each mesher
/// did.
fn run_scripts<R: Threads + Wait + Sync, G: Gate + Sync>(
    rt: &R,
    alloc: Global,
    gate: &G,
    job: &Job,
    args: &ThreadsArgs,
) -> Result<Ran, ThreadsError>
    ensures ran { IfOk result (IsRunOf job.now.scripts args.now) }
    ensures none { HasRoom job.now → IfErr result (IsNoRun job.now) }
{
    let plan = plan_of(alloc, args)?;
    let commands = commands_of(alloc, &job.scripts)?;
    let scripts = slices_of(alloc, commands.as_slice())?;
    run_book(rt, alloc, gate, job, args, &plan, scripts.as_slice())
}

/// Runs a job's scripts on a fresh book, while meshers follow the plan of the arguments. The book is opened last, so
/// that no other preparation can fail while the book is open.
fn run_book<R: Threads + Wait + Sync, G: Gate + Sync>(
    rt: &R,
    alloc: Global,
    gate: &G,
    job: &Job,
    args: &ThreadsArgs,
    plan: &MeshPlan,
    scripts: &[&[Command]],
) -> Result<Ran, ThreadsError>
    requires plan { IsPlanOf args.now plan.now }
    requires scripts { map (λ script. script.now) scripts.now ≡ job.now.scripts }
    requires some { 1 ≤ length scripts.now }
    requires few { length scripts.now ≤ 64 }
    requires range { All (λ script. All IsInRange script.now) scripts.now }
    ensures ran { IfOk result (IsRunOf job.now.scripts args.now) }
    ensures none { HasRoom job.now → IfErr result (IsNoRun job.now) }
{
    let book = book_of(alloc, job)?;
    let ran = run_within(rt, alloc, book, scripts, plan, Limits::none(), gate)?;
    Ok(ran)
}

/// A fresh book with a job's sizes.
fn book_of(alloc: Global, job: &Job) -> Result<Book, AllocError>
    ensures { IfOk result (IsBookOf job.now) }
{
    Book::open(alloc, job.pages, job.history)
}

/// The plan of the meshers.
fn plan_of(alloc: Global, args: &ThreadsArgs) -> Result<MeshPlan, AllocError>
    ensures asked { IfOk result (IsPlanOf args.now) }
    ensures searchers { IfOk result (λ plan. (1 ≤ plan.workers) × (plan.workers ≤ 16)) }
    ensures meshers { IfOk result (λ plan. (1 ≤ plan.meshers) × (plan.meshers ≤ 10)) }
{
    Ok(MeshPlan {
        t: args.probe,
        rounds: args.rounds,
        workers: args.workers,
        words: words(alloc, args.seed, args.rounds)?,
        meshers: args.meshers,
    })
}

/// The commands of each script.
fn commands_of(alloc: Global, scripts: &Scripts) -> Result<Vec<Commands>, AllocError>
    ensures { IfOk result (λ all. all.items ≡ scripts.now) }
{
    let mut all = Vec::new(alloc);
    for worker in 0..scripts.count() as u32 {
        all.push(scripts.of(worker).commands(alloc)?)?;
    }
    Ok(all)
}

/// The commands of each script, as slices.
fn slices_of<'a>(alloc: Global, scripts: &'a [Commands]) -> Result<Vec<&'a [Command]>, AllocError>
    ensures value { IfOk result (λ slices. map (λ script. script.now) slices.items ≡ scripts.now) }
    ensures range { IfOk result (λ slices. All (λ script. All IsInRange script.now) slices.items) }
{
    let mut slices = Vec::new(alloc);
    for commands in scripts {
        slices.push(commands.as_slice())?;
    }
    Ok(slices)
}

/// Whether a history of `history` entries has room for all commands of the scripts.
fn has_room(scripts: &Scripts, history: u32) -> bool
    ensures { IsTrue result ↔ (command_count scripts.now ≤ history) }
{
    let mut room = history as usize;
    for worker in 0..scripts.count() as u32 {
        let commands = scripts.of(worker).len();
        if commands > room {
            return false;
        }
        room -= commands;
    }
    true
}

/// Writes a text. The error is Write if the output failed, and then only a beginning of the text was written.
fn write_text<O: Sink>(output: &mut O, text: &[u8]) -> Result<(), ThreadsError>
    requires { O.has_failed output.old ≡ false }
    ensures ok { OnOk result (Appends (O.written output.old) (O.written output.new) text.now) }
    ensures err { OnErr result (AppendsBeginning (O.written output.old) (O.written output.new) text.now) }
    ensures fault { IfErr result (λ error. error ≡ ThreadsError.Replay ReplayError.Write) }
    ensures fails { O.has_failed output.new ≡ is_err result }
{
    write_all(output, text).map_err(|_| ThreadsError::Replay(ReplayError::Write))
}

/// The exit status of a run in threads that stopped.
fn threads_status_of(error: ThreadsError) -> u8
    ensures { result ≡ threads_status error }
{
    match error {
        ThreadsError::Replay(error) => status_of(error),
        ThreadsError::TooShort => FAULTY,
        ThreadsError::Thread | ThreadsError::Run => FAILED,
    }
}
