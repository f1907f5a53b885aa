//! The run that a command line asks for.
ghost use Rattle.std.specs.Prelude.{◌||◌};
ghost use Rattle.std.specs.Option.{option_copied};
ghost use Rattle.run_command_line.specs.Conditions.{conditions_of};
ghost use Rattle.run_program.specs.Dispatches.{EndsAs, EndsCheckBy, EndsEcho, EndsExploreBy, EndsJudgement, EndsRecorded, EndsReplay};
ghost use Rattle.run_program.specs.Draws.{EndsDraw, EndsDrawHtml, EndsDrawText, EndsLive};
ghost use Rattle.run_program.specs.LiveSizes.{session_sizes};
ghost use Rattle.run_program.specs.Certificates.{EndsCertificate};
ghost use Rattle.run_program.specs.Runs.{IsSound};
ghost use Rattle.run_program.specs.Savings.{EndsSavings, options_of};
ghost use Rattle.run_program.specs.Threads.{EndsThreads};
ghost use Rattle.run_program.specs.declared.printed.Printed.{Printed};

use crate::certificate::certificate_run;
use crate::check::check_run;
use crate::draw::{draw_html_run, draw_run, draw_text_run};
use crate::explore::explore_run;
use crate::live::live_run;
use crate::printed::Printed;
use crate::runs::{replay_echo_run, replay_history_run, replay_run};
use crate::savings::savings_run;
use crate::threads::printed_run;
use crate::{
    Args, Begun, CheckArgs, Conditions, Criteria, Devices, DrawArgs, ExploreArgs, LiveArgs,
    PacedArgs, Request, SavingsArgs, ThreadsArgs,
};
use mesh_shared::{NoGate, Pace};
use states_reach::Watch;
use std::alloc::Global;
use std::rt::Clock;
use std::sync::Wait;
use std::thread::Threads;
use text_devices::{Sink, Source};

/// A run that has ended: its exit status, and its devices.
#[derive(Drop)]
pub struct Ended<I: Source, O: Sink, E: Sink> {
    /// The exit status.
    pub status: u8,
    /// The devices, as the run left them.
    pub devices: Devices<I, O, E>,
}

/// Runs the subcommand that is requested, with its arguments and its conditions. `expected` is the text of the expected
/// outcomes of an exploration, whose progress is reported to `watch`.
pub fn run<
    R: Threads + Wait + Sync + Clock,
    I: Source + Drop,
    O: Sink + Drop,
    E: Sink + Drop,
    W: Watch,
>(
    threads: &R,
    alloc: Global,
    request: &Request<'_>,
    expected: Option<&[u8]>,
    devices: Devices<I, O, E>,
    watch: &mut W,
) -> Ended<I, O, E>
    requires { IsSound devices }
    ensures { EndsAs request.now (option_copied expected.entry) devices result.devices result.status }
{
    match &request.args {
        Args::Replay(_) => replay(alloc, devices),
        Args::ReplayHistory(_) => replay_history(alloc, devices),
        Args::ReplayEcho(_) => replay_echo(alloc, devices),
        Args::Threads(_, args) => run_scripts(threads, alloc, args, Printed::Answers, devices),
        Args::ThreadsPaced(_, paced) => {
            run_paced(threads, alloc, paced, Printed::Answers, devices)
        }
        Args::ThreadsHistory(_, paced) => {
            run_paced(threads, alloc, paced, Printed::History, devices)
        }
        Args::ThreadsReport(_, paced) => {
            run_paced(threads, alloc, paced, Printed::Report, devices)
        }
        Args::Draw(path, args) => draw(alloc, path, args, devices),
        Args::DrawText(_, args) => draw_text(alloc, args, devices),
        Args::DrawHtml(path, args) => draw_html(alloc, path, args, devices),
        Args::Explore(_, args) => {
            explore(alloc, args, &request.conditions, expected, devices, watch)
        }
        Args::Live(args) => live(alloc, args, devices),
        Args::Check(_, args) => check(alloc, args, devices),
        Args::Savings(path, args) => report_savings(alloc, path, args, devices),
    }
}

/// Replays a job, and prints the answers.
fn replay<I: Source, O: Sink, E: Sink>(
    alloc: Global,
    mut devices: Devices<I, O, E>,
) -> Ended<I, O, E>
    requires { IsSound devices }
    ensures { EndsReplay devices result.devices result.status }
{
    let status = replay_run(
        alloc,
        &mut devices.input,
        &mut devices.output,
        &mut devices.errors,
    );
    Ended { status, devices }
}

/// Replays a job, and prints its journal as a recorded history.
fn replay_history<I: Source, O: Sink, E: Sink>(
    alloc: Global,
    mut devices: Devices<I, O, E>,
) -> Ended<I, O, E>
    requires { IsSound devices }
    ensures { EndsRecorded devices result.devices result.status }
{
    let status = replay_history_run(alloc, &mut devices);
    Ended { status, devices }
}

/// Replays a job, and prints each line of the plan before its answer.
fn replay_echo<I: Source, O: Sink, E: Sink>(
    alloc: Global,
    mut devices: Devices<I, O, E>,
) -> Ended<I, O, E>
    requires { IsSound devices }
    ensures { EndsEcho devices result.devices result.status }
{
    let status = replay_echo_run(alloc, &mut devices);
    Ended { status, devices }
}

/// Runs a job's scripts in threads, and prints what is asked for. With a pace, each worker waits behind each call of
/// this number until a mesher has made a call.
fn run_paced<R: Threads + Wait + Sync + Clock, I: Source, O: Sink, E: Sink>(
    threads: &R,
    alloc: Global,
    paced: &PacedArgs,
    printed: Printed,
    mut devices: Devices<I, O, E>,
) -> Ended<I, O, E>
    requires { IsSound devices }
    ensures { EndsThreads printed paced.now.args devices result.devices result.status }
{
    let Some(every) = paced.pace else {
        return run_scripts(threads, alloc, &paced.args, printed, devices);
    };
    let gate = Pace::new(threads, every.max(1), paced.args.meshers);
    let status = printed_run(threads, alloc, &gate, &mut devices, &paced.args, printed);
    Ended { status, devices }
}

/// Runs a job's scripts in threads that no gate stops, and prints what is asked for.
fn run_scripts<R: Threads + Wait + Sync, I: Source, O: Sink, E: Sink>(
    threads: &R,
    alloc: Global,
    args: &ThreadsArgs,
    printed: Printed,
    mut devices: Devices<I, O, E>,
) -> Ended<I, O, E>
    requires { IsSound devices }
    ensures { EndsThreads printed args.now devices result.devices result.status }
{
    let status = printed_run(threads, alloc, &NoGate, &mut devices, args, printed);
    Ended { status, devices }
}

/// Draws the plan of a job, whose file has this path.
fn draw<I: Source, O: Sink, E: Sink>(
    alloc: Global,
    path: &str,
    args: &DrawArgs,
    mut devices: Devices<I, O, E>,
) -> Ended<I, O, E>
    requires { IsSound devices }
    ensures { EndsDraw path.now args.now devices result.devices result.status }
{
    let status = draw_run(alloc, path, args, &mut devices);
    Ended { status, devices }
}

/// Writes the heap after each line of the plan of a job as text.
fn draw_text<I: Source, O: Sink, E: Sink>(
    alloc: Global,
    args: &DrawArgs,
    mut devices: Devices<I, O, E>,
) -> Ended<I, O, E>
    requires { IsSound devices }
    ensures { EndsDrawText args.now devices result.devices result.status }
{
    let status = draw_text_run(alloc, args, &mut devices);
    Ended { status, devices }
}

/// Writes a page that steps through the plan of a job, whose file has this path.
fn draw_html<I: Source, O: Sink, E: Sink>(
    alloc: Global,
    path: &str,
    args: &DrawArgs,
    mut devices: Devices<I, O, E>,
) -> Ended<I, O, E>
    requires { IsSound devices }
    ensures { EndsDrawHtml path.now args.now devices result.devices result.status }
{
    let status = draw_html_run(alloc, path, args, &mut devices);
    Ended { status, devices }
}

/// Explores a job. A verdict judges these conditions and, if there is one, this text of the expected outcomes.
fn explore<I: Source, O: Sink, E: Sink, W: Watch>(
    alloc: Global,
    args: &ExploreArgs<'_>,
    conditions: &Conditions<'_>,
    expected: Option<&[u8]>,
    mut devices: Devices<I, O, E>,
    watch: &mut W,
) -> Ended<I, O, E>
    requires { IsSound devices }
    ensures { EndsExploreBy args.now (conditions_of conditions.now) (option_copied expected.entry) devices
        result.devices result.status }
{
    let criteria = Criteria::new(expected, conditions);
    let status = explore_run(alloc, args, &criteria, &mut devices, watch);
    Ended { status, devices }
}

/// Answers the lines of a live session.
fn live<I: Source, O: Sink, E: Sink>(
    alloc: Global,
    args: &LiveArgs,
    mut devices: Devices<I, O, E>,
) -> Ended<I, O, E>
    requires { IsSound devices }
    ensures { EndsLive (session_sizes args.now) devices result.devices result.status }
{
    let status = live_run(alloc, args, &mut devices);
    Ended { status, devices }
}

/// Judges a recorded history, and prints the verdict or the certificate of it that is asked for.
fn check<I: Source + Drop, O: Sink + Drop, E: Sink + Drop>(
    alloc: Global,
    args: &CheckArgs,
    devices: Devices<I, O, E>,
) -> Ended<I, O, E>
    requires { IsSound devices }
    ensures { EndsCheckBy (args.now.is_ordered || args.now.is_witnessed) args.now devices result.devices result.status }
{
    if args.is_ordered || args.is_witnessed {
        certify(alloc, args, devices)
    } else {
        judge(alloc, args.configurations, devices)
    }
}

/// Judges a recorded history, and prints the certificate of the verdict that is asked for if there is one.
fn certify<I: Source, O: Sink, E: Sink>(
    alloc: Global,
    args: &CheckArgs,
    mut devices: Devices<I, O, E>,
) -> Ended<I, O, E>
    requires { IsSound devices }
    ensures { EndsCertificate args.now devices result.devices result.status }
{
    let status = certificate_run(alloc, args, &mut devices);
    Ended { status, devices }
}

/// Judges a recorded history, and prints the verdict. Bytes of the input that were inspected and not read are lost.
fn judge<I: Source + Drop, O: Sink, E: Sink>(
    alloc: Global,
    most: u32,
    devices: Devices<I, O, E>,
) -> Ended<I, O, E>
    requires { IsSound devices }
    ensures { EndsJudgement most devices result.devices result.status }
{
    let (input, output, errors) = devices.into_parts();
    let mut devices = Devices::new(Begun::new(input), output, errors);
    let status = check_run(alloc, most, &mut devices);
    let (begun, output, errors) = devices.into_parts();
    Ended {
        status,
        devices: Devices::new(begun.into_inner(), output, errors),
    }
}

/// Reports what meshing saves for a recorded history.
fn report_savings<I: Source, O: Sink, E: Sink>(
    alloc: Global,
    path: &str,
    args: &SavingsArgs,
    mut devices: Devices<I, O, E>,
) -> Ended<I, O, E>
    requires { IsSound devices }
    ensures { EndsSavings (options_of args.now) devices result.devices result.status }
{
    let status = savings_run(alloc, path, args, &mut devices);
    Ended { status, devices }
}
