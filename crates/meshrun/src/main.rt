//! The program `meshrun`: a modelled heap that is compacted by meshing.
//!
//! - `meshrun replay FILE` runs the plan of a job file, and prints one answer line for each line of the plan.
//! - `meshrun threads FILE ..` runs the scripts, each on a thread of its own, while other threads search and mesh, and
//!   prints each worker's answers.
//! - `meshrun draw FILE ..` draws a picture of the plan.
//! - `meshrun explore FILE ..` runs the commands that the plan leaves, in every interleaving with meshes, and prints
//!   all answers or a verdict.
//! - `meshrun live ..` answers the lines of standard input one by one.
//! - `meshrun check FILE` judges a recorded history.
//! - `meshrun savings FILE ..` reports what meshing would save for a recorded history.
//!
//! With `--history`, `replay` prints the journal as a recorded history, and `threads` prints one recorded history of
//! all scripts' commands.
#![tactic(auto)]

ghost use Rattle.std.specs.Prelude.{◌≡◌, ℕ, List, false, IfErr, IfOk, IsSome, option_map};
ghost use Rattle.std.specs.Option.{option_copied};
ghost use Rattle.meshrun.specs.Paths.{expected_file_of, file_at, file_of};
ghost use Rattle.meshrun.specs.Runs.{EndsOrUnread};
ghost use Rattle.run_program.specs.Dispatches.{EndsAs};
ghost use Rattle.run_program.specs.Runs.{IsSound};

use run_program::{
    Args, Devices, Ended, Hushed, Input, Kept, Output, Piped, Progress, Request, Sink, Source,
    TextKind, TextSource, Told, expected_run, explain_run, explain_savings_run, request, run,
    stop_run, unopened_reason_run, unopened_run, unread_words,
};
use std::cell::Cell;
use std::fs::File;
use std::io::IsTerminal;
use std::process::ExitCode;
use std::rt::Clock;
use std::sync::Wait;
use std::thread::Threads;
use std::{env, fs, io};

/// The path by which the command line names standard input.
const STANDARD_INPUT: &str = "-";

/// The exit status of a run whose input has a fault.
const FAULTY: u8 = 2;

fn main(rt: HostRuntime) -> ExitCode {
    let mut output = Output::new(rt.stdout());
    let mut errors = Output::new(rt.stderr());
    let status = match words(&rt) {
        Ok(words) => match request(rt.alloc(), words.as_slice()) {
            Ok(request) => {
                let asked = Asked {
                    rt: &rt,
                    threads: &rt,
                    request: &request,
                };
                run_asked(&asked, output, errors)
            }
            Err(stop) => stop_run(&stop, &mut output, &mut errors),
        },
        Err(error) => stop_run(&unread_words(&error), &mut output, &mut errors),
    };
    ExitCode::from(status)
}

/// What the program is asked for, and the handles for it.
#[derive(Clone, Copy)]
struct Asked<'a, R> {
    rt: &'a HostRuntime,
    threads: &'a R,
    request: &'a Request<'a>,
}

/// Runs the command that the program is asked for, and returns the exit status.
fn run_asked<R: Threads + Wait + Sync + Clock, O: Sink + Drop, E: Sink + Drop>(
    asked: &Asked<'_, R>,
    output: O,
    mut errors: E,
) -> u8
    requires { O.has_failed output ≡ false }
{
    if explains(asked.request) {
        return run_explained(asked);
    }
    let Some(path) = path_of(&asked.request.args) else {
        let input = Input::new(asked.rt.stdin());
        return run_on(asked, input, output, errors).status;
    };
    match File::open(asked.rt, path) {
        Ok(file) => run_on(asked, Input::new(file), output, errors).status,
        Err(_) => unopened_run(&mut errors),
    }
}

/// Whether a second line on standard error explains a fault of the input, and a closed pipe is no fault. A live session
/// answers faults itself.
fn explains(request: &Request<'_>) -> bool {
    match request.args {
        Args::Live(_) => false,
        _ => request.explains,
    }
}

/// Runs the command that the program is asked for, explains the fault of its input if it has one, and returns the exit
/// status. If the reader of standard output has gone, no fault is reported.
fn run_explained<R: Threads + Wait + Sync + Clock>(asked: &Asked<'_, R>) -> u8 {
    let rt = asked.rt;
    let is_closed = Cell::new(false);
    let output = Output::new(Piped::new(rt.stdout(), &is_closed));
    let mut errors = Hushed::new(Output::new(rt.stderr()), &is_closed);
    let Some(path) = path_of(&asked.request.args) else {
        let input = Input::new(rt.stdin());
        return run_kept(asked, STANDARD_INPUT, input, output, errors);
    };
    match File::open(rt, path) {
        Ok(file) if is_regular(rt, path) => run_file(asked, path, file, output, errors),
        Ok(file) => run_kept(asked, path, Input::new(file), output, errors),
        Err(error) => unopened(path, &error, &mut errors),
    }
}

/// Whether the file at the path can be read again: it is no pipe and no device.
fn is_regular(rt: &HostRuntime, path: &str) -> bool {
    match fs::metadata(rt, path) {
        Ok(metadata) => metadata.is_file(),
        Err(_) => false,
    }
}

/// Runs the command on an input with this name that can be read only once, and explains the fault of its text.
fn run_kept<R: Threads + Wait + Sync + Clock, I: Source + Drop, O: Sink + Drop, E: Sink + Drop>(
    asked: &Asked<'_, R>,
    name: &str,
    input: I,
    output: O,
    errors: E,
) -> u8
    requires input { I.has_failed input ≡ false }
    requires output { O.has_failed output ≡ false }
{
    let input = Kept::new(asked.rt.alloc(), input);
    let Ended { status, devices } = run_on(asked, input, output, errors);
    let (input, _, mut errors) = devices.into_parts();
    if status == FAULTY {
        if let Some(text) = input.text() {
            explain_text(asked.rt, &asked.request.args, name, text, &mut errors);
        }
    }
    status
}

/// Explains the fault of a text, whose input has this name.
fn explain_text<E: Sink>(
    rt: &HostRuntime,
    args: &Args<'_>,
    name: &str,
    text: &[u8],
    errors: &mut E,
) {
    explain(rt, args, name, &mut TextSource { rest: text }, errors);
}

/// Runs the command on the file at the path, and explains the fault of its text, for which it reads the file again.
fn run_file<R: Threads + Wait + Sync + Clock, O: Sink + Drop, E: Sink + Drop>(
    asked: &Asked<'_, R>,
    path: &str,
    file: File,
    output: O,
    errors: E,
) -> u8
    requires { O.has_failed output ≡ false }
{
    let Ended { status, devices } = run_on(asked, Input::new(file), output, errors);
    let (_, _, mut errors) = devices.into_parts();
    if status == FAULTY {
        if let Ok(file) = File::open(asked.rt, path) {
            explain(
                asked.rt,
                &asked.request.args,
                path,
                &mut Input::new(file),
                &mut errors,
            );
        }
    }
    status
}

/// Writes that the file at the path can't be opened, and why. Returns the exit status.
fn unopened<E: Sink>(path: &str, error: &io::Error, errors: &mut E) -> u8
    ensures { result ≡ 1 }
{
    let status = unopened_run(errors);
    unopened_reason_run(path, error, errors);
    status
}

/// Explains the fault of the text in the input, which has this name.
fn explain<I: Source, E: Sink>(
    rt: &HostRuntime,
    args: &Args<'_>,
    name: &str,
    input: &mut I,
    errors: &mut E,
)
    requires { I.has_failed input.old ≡ false }
{
    let alloc = rt.alloc();
    match args {
        Args::Savings(_, args) => explain_savings_run(alloc, name, args, input, errors),
        Args::Check(..) => explain_run(alloc, name, TextKind::History, input, errors),
        _ => explain_run(alloc, name, TextKind::Job, input, errors),
    }
}

/// The path of the input file. `None` for standard input.
fn path_of<'a>(args: &Args<'a>) -> Option<&'a str>
    ensures { option_map (λ path. path.now) result ≡ file_of args.now }
{
    let path = match *args {
        Args::Live(_) => return None,
        Args::Replay(path)
        | Args::ReplayHistory(path)
        | Args::ReplayEcho(path)
        | Args::Threads(path, _)
        | Args::ThreadsPaced(path, _)
        | Args::ThreadsHistory(path, _)
        | Args::ThreadsReport(path, _)
        | Args::Draw(path, _)
        | Args::DrawText(path, _)
        | Args::DrawHtml(path, _)
        | Args::Explore(path, _)
        | Args::Check(path, _)
        | Args::Savings(path, _) => path,
    };
    file_at(path)
}

/// The path of a file. `None` for the path that names standard input.
fn file_at(path: &str) -> Option<&str>
    ensures { option_map (λ path. path.now) result ≡ file_at path.now }
{
    if path == STANDARD_INPUT {
        None
    } else {
        Some(path)
    }
}

/// Runs the command with this input, output and error output. If the text of the expected outcomes can't be read, runs
/// nothing.
fn run_on<R: Threads + Wait + Sync + Clock, I: Source + Drop, O: Sink + Drop, E: Sink + Drop>(
    asked: &Asked<'_, R>,
    input: I,
    output: O,
    errors: E,
) -> Ended<I, O, E>
    requires input { I.has_failed input ≡ false }
    requires output { O.has_failed output ≡ false }
{
    let devices = Devices::new(input, output, errors);
    run_devices(asked, devices)
}

/// Runs the command on these devices, as `run_on` does.
fn run_devices<R: Threads + Wait + Sync + Clock, I: Source + Drop, O: Sink + Drop, E: Sink + Drop>(
    asked: &Asked<'_, R>,
    devices: Devices<I, O, E>,
) -> Ended<I, O, E>
    requires { IsSound devices }
    ensures none { expected_file_of asked.now.request.now.args ≡ None
        → EndsAs asked.now.request.now None devices result.devices result.status }
    ensures some { (path : List ℕ) → expected_file_of asked.now.request.now.args ≡ Some path
        → EndsOrUnread asked.now.request.now devices result.devices result.status }
{
    match expected(asked.rt, &asked.request.args) {
        Ok(Some(text)) => run_expecting(asked, Some(text.as_slice()), devices),
        Ok(None) => run_expecting(asked, None, devices),
        Err(status) => Ended { status, devices },
    }
}

/// Runs the command on these devices. `expected` is the text of the expected outcomes of an exploration. During an
/// exploration, prints the number of states found so far on standard error, if standard error is a terminal or the
/// arguments ask for progress.
fn run_expecting<
    R: Threads + Wait + Sync + Clock,
    I: Source + Drop,
    O: Sink + Drop,
    E: Sink + Drop,
>(asked: &Asked<'_, R>, expected: Option<&[u8]>, devices: Devices<I, O, E>) -> Ended<I, O, E>
    requires { IsSound devices }
    ensures { EndsAs asked.now.request.now (option_copied expected.entry) devices result.devices result.status }
{
    let rt = asked.rt;
    let stderr = rt.stderr();
    let is_watched = is_watched(&asked.request.args, stderr.is_terminal());
    let mut watch = Progress::new(rt, Output::new(stderr), is_watched);
    run(
        asked.threads,
        rt.alloc(),
        asked.request,
        expected,
        devices,
        &mut watch,
    )
}

/// Whether progress is printed: during an exploration, on a terminal or if the arguments ask for it.
fn is_watched(args: &Args<'_>, is_terminal: bool) -> bool {
    match args {
        Args::Explore(_, args) => args.is_watched || is_terminal,
        _ => false,
    }
}

/// Returns the text of the expected outcomes, or `None` if the arguments name no such text. If the text can't be read,
/// the error is the exit status, 1.
fn expected(rt: &HostRuntime, args: &Args<'_>) -> Result<Option<Vec<u8>>, u8>
    ensures none { expected_file_of args.now ≡ None → result ≡ Ok None }
    ensures some { (path : List ℕ) → expected_file_of args.now ≡ Some path → IfOk result (λ text. IsSome text) }
    ensures unread { IfErr result (λ status. status ≡ 1) }
{
    let Some(path) = expected_path(args) else {
        return Ok(None);
    };
    let mut errors = Output::new(rt.stderr());
    if path == STANDARD_INPUT {
        let text = expected_run(rt.alloc(), &mut Input::new(rt.stdin()), &mut errors)?;
        return Ok(Some(text));
    }
    match File::open(rt, path) {
        Ok(file) => {
            let text = expected_run(rt.alloc(), &mut Input::new(file), &mut errors)?;
            Ok(Some(text))
        }
        Err(error) => Err(unopened(path, &error, &mut errors)),
    }
}

/// The path of the text of the expected outcomes, if the arguments name one.
fn expected_path<'a>(args: &Args<'a>) -> Option<&'a str>
    ensures { option_map (λ path. path.now) result ≡ expected_file_of args.now }
{
    match *args {
        Args::Explore(_, args) => match args.told {
            Told::Verdict(path) => path,
            _ => None,
        },
        _ => None,
    }
}

/// The words of the command line, the program's name first.
fn words(rt: &HostRuntime) -> io::Result<Vec<String>> {
    let words = env::args(rt)?.collect(rt.alloc())?;
    Ok(words)
}
