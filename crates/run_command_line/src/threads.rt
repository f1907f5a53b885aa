//! The request of `threads`.
ghost use Rattle.std.specs.Prelude.{◌≡◌, option_map};
ghost use Rattle.clap.specs.Words.{found_of, rows_of};
ghost use Rattle.run_command_line.specs.Conditions.{ConditionTexts};
ghost use Rattle.run_command_line.specs.CommandLine.{asking, numbers_in, numbers_of, threads_by, threads_in, threads_of as threads_asked};

use crate::options::{MESHERS, PACE, PROBE, REPORT, ROUNDS, SEED, WORKERS};
use crate::values::{is_given, is_recorded, number, number_if_given, small_number};
use crate::{Args, PacedArgs, ThreadsArgs};
use clap::ArgMatches;

/// Returns the request of `threads` for this file. Returns `None` if a number isn't in its range, or if both
/// `--history` and `--report` are given.
pub(crate) fn threads<'a>(file: &'a str, matches: &ArgMatches<'a>) -> Option<Args<'a>>
    ensures { (conditions : ConditionTexts) → option_map (asking conditions) result
        ≡ threads_in file.now (rows_of (found_of matches.now)) }
{
    let numbers = numbers(matches)?;
    let is_recorded = is_recorded(matches)?;
    let is_reported = is_given(matches, REPORT)?;
    threads_of(file, numbers, is_recorded, is_reported)
}

/// Returns the request for a run of a file's scripts in threads. The run prints a recorded history if `is_recorded` is
/// true, a report behind the answers if `is_reported` is true, and otherwise the answers alone. Returns `None` if both
/// are true.
fn threads_of(
    file: &str,
    paced: PacedArgs,
    is_recorded: bool,
    is_reported: bool,
) -> Option<Args<'_>>
    ensures { (conditions : ConditionTexts) → option_map (asking conditions) result
        ≡ threads_by file.now (numbers_of paced) is_recorded is_reported }
{
    match (is_recorded, is_reported) {
        (true, true) => None,
        (true, false) => Some(Args::ThreadsHistory(file, paced)),
        (false, true) => Some(Args::ThreadsReport(file, paced)),
        (false, false) => Some(answered(file, paced)),
    }
}

/// Returns the request for a run of a file's scripts in threads that prints the answers alone.
fn answered(file: &str, paced: PacedArgs) -> Args<'_>
    ensures { (conditions : ConditionTexts) → asking conditions result ≡ threads_asked file.now (numbers_of paced) }
{
    match paced.pace {
        Some(_) => Args::ThreadsPaced(file, paced),
        None => Args::Threads(file, paced.args),
    }
}

/// Returns the arguments of `threads`, or `None` if a number isn't in its range.
fn numbers<'a>(matches: &ArgMatches<'a>) -> Option<PacedArgs>
    ensures { option_map numbers_of result ≡ numbers_in (rows_of (found_of matches.now)) }
{
    let probe = small_number(matches, PROBE)?;
    let rounds = small_number(matches, ROUNDS)?;
    let workers = small_number(matches, WORKERS)?;
    let seed = number(matches, SEED)?;
    let meshers = small_number(matches, MESHERS)?;
    let pace = number_if_given(matches, PACE)?;
    let args = ThreadsArgs {
        probe,
        rounds,
        workers,
        seed,
        meshers,
    };
    Some(PacedArgs { args, pace })
}
