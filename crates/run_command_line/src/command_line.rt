//! The request of a command line, and how its words are read.
ghost use Rattle.std.specs.Prelude.{◌≡◌, ◌≤◌, ◌⊎◌, IfErr, IfOk, IfSome, None, codes, map, option_and_then, option_map, true};
ghost use Rattle.clap.specs.Words.{app_of, first_of, found_of, kind_of, rows_of, subcommand_rows_of};
ghost use Rattle.run_command_line.specs.Conditions.{conditions_of};
ghost use Rattle.run_command_line.specs.CommandLine.{IsAllowedOf, IsAsked, IsOutOfMemory, IsRequested, IsSaidOf, IsStopAt, asked, asked_in, asked_of, asked_with, asking, asking_of, is_taken, meshrun_app, conditions_asked, conditions_found, explains_asked, explains_found, explains_in};

use crate::check::check;
use crate::clap_command::meshrun_command;
use crate::conditions::given_conditions;
use crate::draw::draw;
use crate::explore::explore;
use crate::faults::{program_name, unread};
use crate::live::sizes;
use crate::options::{EXPLAIN, FILE};
use crate::replay::replay;
use crate::savings::savings;
use crate::stop::stop_of;
use crate::threads::threads;
use crate::values::is_given;
use crate::{
    CheckArgs, Conditions, DrawArgs, ExploreArgs, LiveArgs, PacedArgs, Request, SavingsArgs, Stop,
    ThreadsArgs,
};
use clap::{ArgMatches, Command, Error};
use std::alloc::Global;
use std::convert::AsStr;

/// The request of a command line: the subcommand with its arguments.
#[derive(Clone, Copy)]
pub enum Args<'a> {
    /// `replay FILE`: replay the job file at this path, and print the answers.
    Replay(&'a str),
    /// `replay FILE --history`: replay the job file at this path, and print the journal as a recorded history.
    ReplayHistory(&'a str),
    /// `replay FILE --echo`: replay the job file at this path, and print each line of the plan, with the command that a
    /// worker attempts at it, before its answer.
    ReplayEcho(&'a str),
    /// `threads FILE ..`: run the scripts of the job file at this path in threads, and print each worker's answers.
    Threads(&'a str, ThreadsArgs),
    /// `threads FILE .. --pace N`: the same, with workers that wait for meshers.
    ThreadsPaced(&'a str, PacedArgs),
    /// `threads FILE .. --history`: run the scripts of the job file at this path in threads, and print the journal as a
    /// recorded history.
    ThreadsHistory(&'a str, PacedArgs),
    /// `threads FILE .. --report`: run the scripts of the job file at this path in threads, and print each worker's
    /// answers. Behind them, print what each mesher and each worker did, and the heap's report.
    ThreadsReport(&'a str, PacedArgs),
    /// `draw FILE ..`: draw the plan of the job file at this path, from one line to another.
    Draw(&'a str, DrawArgs),
    /// `draw FILE .. --text`: print the heap after each line of the plan of the job file at this path, from one line to
    /// another, as text.
    DrawText(&'a str, DrawArgs),
    /// `draw FILE .. --html`: print an HTML page that steps through the plan of the job file at this path, from one
    /// line to another.
    DrawHtml(&'a str, DrawArgs),
    /// `live ..`: answer the lines of standard input, on a heap with these sizes.
    Live(LiveArgs),
    /// `explore FILE --mesh SRC:DST ..`: explore the commands that the plan of the job file at this path leaves, with
    /// these meshes. `draw FILE --mesh SRC:DST ..`: draw the shortest plan to what goes wrong in such an exploration.
    Explore(&'a str, ExploreArgs<'a>),
    /// `check FILE ..`: judge the recorded history at this path. The path `-` is standard input.
    Check(&'a str, CheckArgs),
    /// `savings FILE ..`: make the calls of the recorded history at this path, and print what meshing saves. The path
    /// `-` is standard input.
    Savings(&'a str, SavingsArgs),
}

/// Reads the words of a command line, as `request` does, and returns its arguments.
pub fn arguments<'a, S: AsStr>(alloc: Global, words: &'a [S]) -> Result<Args<'a>, Stop>
    ensures asked { IfOk result (IsAsked (map S.text words.now)) }
    ensures stop { IfErr result (IsStopAt (map S.text words.now)) }
    ensures passes { IfErr result
        (λ stop. is_taken (map S.text words.now) ≡ true → IsOutOfMemory stop ⊎ (asked (map S.text words.now) ≡ None)) }
    ensures small { IfErr result (λ stop. stop.status ≤ 2) }
{
    match request(alloc, words) {
        Ok(request) => Ok(request.args),
        Err(stop) => Err(stop),
    }
}

/// Reads the words of a command line. The first word is the program's name. Returns the request, or the reason why the
/// program runs no subcommand.
///
/// The words are read by `clap`, which also writes the texts of help, version and errors. The file is the word that was
/// given, unchanged. A number is in the form that `clap` reads as a `u64`: decimal digits, with an optional plus before
/// them. A mesh is two such numbers with a colon between them.
pub fn request<'a, S: AsStr>(alloc: Global, words: &'a [S]) -> Result<Request<'a>, Stop>
    ensures requested { IfOk result (IsRequested (map S.text words.now)) }
    ensures stop { IfErr result (IsStopAt (map S.text words.now)) }
    ensures passes { IfErr result
        (λ stop. is_taken (map S.text words.now) ≡ true → IsOutOfMemory stop ⊎ (asked (map S.text words.now) ≡ None)) }
    ensures small { IfErr result (λ stop. stop.status ≤ 2) }
{
    match read_words(alloc, words) {
        Ok(request) => Ok(request),
        Err(error) => Err(stop_of(alloc, &error)),
    }
}

/// Returns the request of the words, or the error. If `clap` accepts the options but the program
/// doesn't, the error has the form of an error of `clap`.
fn read_words<'a, S: AsStr>(alloc: Global, words: &'a [S]) -> Result<Request<'a>, Error>
    ensures requested { IfOk result (IsRequested (map S.text words.now)) }
    ensures kinds { IfErr result (λ error. IsSaidOf (map S.text words.now) (kind_of error)) }
    ensures passes { IfErr result (λ error. IsAllowedOf (map S.text words.now) (kind_of error)) }
{
    let mut command = meshrun_command(alloc)?;
    read_by(alloc, &mut command, words)
}

/// Returns the request of the words, or the error, as `read_words` does. `command` must be the program's `clap`
/// command.
fn read_by<'a, S: AsStr>(
    alloc: Global,
    command: &mut Command<'a>,
    words: &'a [S],
) -> Result<Request<'a>, Error>
    requires { app_of command.old ≡ meshrun_app }
    ensures requested { IfOk result (IsRequested (map S.text words.now)) }
    ensures kinds { IfErr result (λ error. IsSaidOf (map S.text words.now) (kind_of error)) }
    ensures passes { IfErr result (λ error. IsAllowedOf (map S.text words.now) (kind_of error)) }
{
    let matches = matches_of(command, words)?;
    match asked_for(&matches) {
        Some(request) => Ok(request),
        None => Err(unread(alloc, program_name(words), &matches)?),
    }
}

/// Returns the `clap` matches of the words, or the error of `clap`.
fn matches_of<'a, S: AsStr>(
    command: &mut Command<'a>,
    words: &'a [S],
) -> Result<ArgMatches<'a>, Error>
    requires { app_of command.old ≡ meshrun_app }
    ensures asked { IfOk result (λ matches. asked_in (subcommand_rows_of matches) ≡ asked (map S.text words.now)) }
    ensures conditions { IfOk result
        (λ matches. conditions_found (subcommand_rows_of matches) ≡ conditions_asked (map S.text words.now)) }
    ensures explains { IfOk result
        (λ matches. explains_found (subcommand_rows_of matches) ≡ explains_asked (map S.text words.now)) }
    ensures kinds { IfErr result (λ error. IsSaidOf (map S.text words.now) (kind_of error)) }
    ensures passes { IfErr result (λ error. IsAllowedOf (map S.text words.now) (kind_of error)) }
{
    command.try_get_matches_from_mut(words)
}

/// Returns the request in the matches. Returns `None` if the program doesn't accept the matches.
fn asked_for<'a>(matches: &ArgMatches<'a>) -> Option<Request<'a>>
    ensures asked { option_map asking_of result ≡ asked_in (subcommand_rows_of matches.now) }
    ensures conditions { IfSome result
        (λ request. conditions_of request.conditions ≡ conditions_found (subcommand_rows_of matches.now)) }
    ensures explains { IfSome result
        (λ request. request.explains ≡ explains_found (subcommand_rows_of matches.now)) }
{
    let (name, matches) = matches.subcommand()?;
    let conditions = given_conditions(matches)?;
    let args = asked_by(name, matches, &conditions)?;
    let explains = explains(matches);
    Some(Request {
        args,
        conditions,
        explains,
    })
}

/// Whether faults are explained: always, unless the subcommand has the flag `--explain` and it isn't given.
fn explains<'a>(matches: &ArgMatches<'a>) -> bool
    ensures { result ≡ explains_in (rows_of (found_of matches.now)) }
{
    match is_given(matches, EXPLAIN) {
        Some(is_given) => is_given,
        None => true,
    }
}

/// Returns the request of the subcommand `name` with these matches. Returns `None` if the program doesn't accept the
/// matches. `live` is the only subcommand without a file.
fn asked_by<'a>(
    name: &str,
    matches: &ArgMatches<'a>,
    conditions: &Conditions<'a>,
) -> Option<Args<'a>>
    ensures { option_map (asking (conditions_of conditions.now)) result
        ≡ asked_with (conditions_of conditions.now) name.now (rows_of (found_of matches.now)) }
{
    match name {
        "live" => Some(Args::Live(sizes(matches)?)),
        _ => asked_of(name, matches, conditions),
    }
}

/// Returns the request of the subcommand `name`, which has a file, with these matches. Returns `None` if there is no
/// such subcommand, or the program doesn't accept the matches.
fn asked_of<'a>(
    name: &str,
    matches: &ArgMatches<'a>,
    conditions: &Conditions<'a>,
) -> Option<Args<'a>>
    ensures { option_map (asking (conditions_of conditions.now)) result
        ≡ option_and_then (asked_of (conditions_of conditions.now) name.now (rows_of (found_of matches.now)))
        (first_of (codes "FILE") (rows_of (found_of matches.now))) }
{
    let file = matches.get_str(FILE)?;
    match name {
        "replay" => replay(file, matches),
        "threads" => threads(file, matches),
        "draw" => draw(file, matches),
        "explore" => explore(file, matches, conditions),
        "check" => check(file, matches),
        "savings" => savings(file, matches),
        _ => None,
    }
}
