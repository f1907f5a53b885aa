//! The errors for options that `clap` accepts, but the program doesn't.
ghost use Rattle.std.specs.Prelude.{◌≡◌, IfOk};
ghost use Rattle.clap.specs.Words.{kind_of};

use crate::clap_command::{PROGRAM, subcommand_of};
use crate::conditions::texts;
use crate::draw::has_steps_option;
use crate::mesh_texts::{first_unread, meshes};
use crate::options::{
    ALWAYS, ANY, COLUMNS, CONDITION, DRAW, EXISTS, EXPLORE, HTML, MESH, NEVER, REPLAY, SAVINGS,
    SHOW, Subcommand, TEXT, THREADS,
};
use crate::told::{is_plain, shown_answer, timing};
use crate::values::{has_value, is_given};
use clap::error::ErrorKind;
use clap::{ArgMatches, Command, Error};
use std::alloc::{AllocError, Global};
use std::convert::AsStr;

/// The error message if both flags of `replay` that replace the answers are given.
const REPLAYED_TWICE: &str = "--history and --echo exclude each other";

/// The error message if both flags of `draw` that replace the picture are given.
const DRAWN_TWICE: &str = "--text and --html exclude each other";

/// The error message if the columns of a picture are given for a text.
const COLUMNS_OF_TEXT: &str = "--columns and --text exclude each other";

/// The error message if the columns of a picture are given for a page.
const COLUMNS_OF_PAGE: &str = "--columns and --html exclude each other";

/// The error message if the first line to draw is behind the last.
const BEYOND_LAST: &str = "--from is greater than --to";

/// The error message if an option of `draw` for the steps of meshes is given without a mesh.
const STEPS_WITHOUT_MESH: &str = "--steps, --any, --store, --load and --free need --mesh";

/// The error message if the shortest plan of an exploration is asked for in part or in another form than a picture.
const SHORTEST_IN_PART: &str = "--mesh excludes --from, --to, --text and --html";

/// The error message if both flags of `threads` that select what is printed are given.
const THREADS_TWICE: &str = "--history and --report exclude each other";

/// The error message if an option of `explore` or `draw` for how a client's accesses are made can't be read, or is
/// given without a client.
const UNREAD_TIMING: &str =
    "--store is split or stale, --load is stale and --free is split, and each needs --any";

/// The error message if options of `explore` exclude each other.
const TOLD_TWICE: &str =
    "--witness, --show, a verdict (--expect, --never, --always, --exists) and a report (--steps, --any) exclude each other, and so do a report and --cancel";

/// The error message if more than ten meshes are given.
const MANY_MESHES: &str = "the argument '--mesh <SRC:DST>' cannot be used more than 10 times";

/// The error message if options of `savings` can't be combined.
const UNREAD_SAVINGS: &str =
    "--every and --share, --seed and --first-fit, and --svg and --csv exclude each other, and --from is at most --to";

/// Returns the name of the program for usage lines. As in usage lines of `clap`, the first word is a path, and the name
/// is the last part of this path. Without a first word, the name is `meshrun`.
pub(crate) fn program_name<'a, S: AsStr>(words: &'a [S]) -> &'a str {
    let Some(word) = words.first() else {
        return PROGRAM;
    };
    let path = word.as_str();
    match path.rsplit_once('/') {
        Some((_, name)) => name,
        None => path,
    }
}

/// Returns the error for options of `replay`, `threads`, `draw`, `explore` or `savings` that `clap` accepts, but the
/// program doesn't. The only error of the call itself is an allocation failure.
pub(crate) fn unread<'a>(
    alloc: Global,
    program: &str,
    matches: &ArgMatches<'a>,
) -> Result<Error, AllocError>
    ensures { IfOk result (λ error. kind_of error ≡ ErrorKind.ValueValidation) }
{
    match matches.subcommand() {
        Some(("replay", _)) => replay_fault(alloc, program),
        Some(("threads", _)) => threads_fault(alloc, program),
        Some(("draw", matches)) => draw_fault(alloc, program, matches),
        Some(("explore", matches)) => explore_fault(alloc, program, matches),
        _ => savings_fault(alloc, program),
    }
}

/// Returns the error for options of `replay` that the program doesn't accept.
fn replay_fault(alloc: Global, program: &str) -> Result<Error, AllocError>
    ensures { IfOk result (λ error. kind_of error ≡ ErrorKind.ValueValidation) }
{
    fault_of(alloc, program, &REPLAY, REPLAYED_TWICE)
}

/// Returns the error for options of `draw` that the program doesn't accept.
fn draw_fault<'a>(
    alloc: Global,
    program: &str,
    matches: &ArgMatches<'a>,
) -> Result<Error, AllocError>
    ensures { IfOk result (λ error. kind_of error ≡ ErrorKind.ValueValidation) }
{
    let message = draw_message(alloc, matches)?;
    fault_of(alloc, program, &DRAW, message.as_str())
}

/// Returns the message about options of `draw` that the program doesn't accept.
fn draw_message<'a>(alloc: Global, matches: &ArgMatches<'a>) -> Result<String, AllocError> {
    if has_value(matches, MESH) {
        return draw_steps_message(alloc, matches);
    }
    if has_steps_option(matches) {
        return String::from_str(alloc, STEPS_WITHOUT_MESH);
    }
    String::from_str(alloc, drawn_plan_message(matches))
}

/// Returns the message about options of `draw` with `--mesh` that the program doesn't accept. The reasons are meshes
/// that can't be read or are too many, accesses that can't be made as asked for, and options that `--mesh` excludes.
fn draw_steps_message<'a>(alloc: Global, matches: &ArgMatches<'a>) -> Result<String, AllocError> {
    if meshes(matches).is_none() {
        return mesh_message(alloc, matches);
    }
    if !has_read_timing(matches) {
        return String::from_str(alloc, UNREAD_TIMING);
    }
    String::from_str(alloc, SHORTEST_IN_PART)
}

/// Returns the message about options of `draw` for the plan of a file that the program doesn't accept. The reasons are
/// options that exclude each other, and a first line behind the last.
fn drawn_plan_message<'a>(matches: &ArgMatches<'a>) -> &'static str {
    let is_text = is_given(matches, TEXT).unwrap_or(false);
    let is_page = is_given(matches, HTML).unwrap_or(false);
    let has_columns = has_value(matches, COLUMNS.name);
    match (is_text, is_page) {
        (true, true) => DRAWN_TWICE,
        (true, false) if has_columns => COLUMNS_OF_TEXT,
        (false, true) if has_columns => COLUMNS_OF_PAGE,
        _ => BEYOND_LAST,
    }
}

/// Returns the error for options of `threads` that the program doesn't accept.
fn threads_fault(alloc: Global, program: &str) -> Result<Error, AllocError>
    ensures { IfOk result (λ error. kind_of error ≡ ErrorKind.ValueValidation) }
{
    fault_of(alloc, program, &THREADS, THREADS_TWICE)
}

/// Returns the error for options of `explore` that the program doesn't accept.
fn explore_fault<'a>(
    alloc: Global,
    program: &str,
    matches: &ArgMatches<'a>,
) -> Result<Error, AllocError>
    ensures { IfOk result (λ error. kind_of error ≡ ErrorKind.ValueValidation) }
{
    let message = explore_message(alloc, matches)?;
    fault_of(alloc, program, &EXPLORE, message.as_str())
}

/// Returns the error for options of `savings` that the program doesn't accept.
fn savings_fault(alloc: Global, program: &str) -> Result<Error, AllocError>
    ensures { IfOk result (λ error. kind_of error ≡ ErrorKind.ValueValidation) }
{
    fault_of(alloc, program, &SAVINGS, UNREAD_SAVINGS)
}

/// Returns an error about a subcommand: the message, and the subcommand's usage. It has the form of an error of `clap`.
fn fault_of(
    alloc: Global,
    program: &str,
    subcommand: &Subcommand,
    message: &str,
) -> Result<Error, AllocError>
    ensures { IfOk result (λ error. kind_of error ≡ ErrorKind.ValueValidation) }
{
    let mut command = named_command(alloc, program, subcommand)?;
    command.error(ErrorKind::ValueValidation, message)
}

/// Returns the `clap` command of a subcommand of this program, whose usage line has the names of both. The only error
/// is an allocation failure.
fn named_command<'a>(
    alloc: Global,
    program: &str,
    subcommand: &Subcommand,
) -> Result<Command<'a>, AllocError> {
    let name = format!(in alloc; "{program} {}", subcommand.name)?;
    subcommand_of(alloc, subcommand)?.bin_name(name.as_str())
}

/// Returns the message about options of `explore` that the program doesn't accept. The reasons are meshes that can't be
/// read or are too many, an option that is given more than ten times, an answer that can't be read, accesses that can't
/// be made as asked for, and options that exclude each other.
fn explore_message<'a>(alloc: Global, matches: &ArgMatches<'a>) -> Result<String, AllocError> {
    if meshes(matches).is_none() {
        return mesh_message(alloc, matches);
    }
    if let Some(option) = overfull(matches) {
        return format!(in alloc;
            "the argument '--{option} <{CONDITION}>' cannot be used more than 10 times"
        );
    }
    match matches.get_str(SHOW) {
        Some(text) if shown_answer(text).is_none() => format!(in alloc;
            "invalid value '{text}' for '--show <LINE:ANSWER:PHASE>': the number of a line, an answer and a phase with colons between them"
        ),
        _ if !has_read_timing(matches) => String::from_str(alloc, UNREAD_TIMING),
        _ => String::from_str(alloc, TOLD_TWICE),
    }
}

/// Whether accesses can be made as asked for: each text can be read, and a client is given if any access is made in two
/// moves.
fn has_read_timing<'a>(matches: &ArgMatches<'a>) -> bool {
    match timing(matches) {
        Some(timing) => is_plain(timing) || has_value(matches, ANY.name),
        None => false,
    }
}

/// Returns the first option for conditions that is given more than ten times. Returns `None` if there is no such
/// option.
fn overfull<'a>(matches: &ArgMatches<'a>) -> Option<&'static str> {
    for option in [NEVER, ALWAYS, EXISTS] {
        if texts(matches, option).is_none() {
            return Some(option);
        }
    }
    None
}

/// Returns the message about meshes that the program doesn't accept. The message names the first text that is no pair
/// of groups. If each text is a pair of groups, the message is that there are too many meshes.
fn mesh_message<'a>(alloc: Global, matches: &ArgMatches<'a>) -> Result<String, AllocError> {
    let unread = match matches.get_strs(MESH) {
        Some(texts) => first_unread(texts),
        None => None,
    };
    match unread {
        Some(text) => format!(in alloc;
            "invalid value '{text}' for '--mesh <SRC:DST>': two group numbers from 0 to 65535 with a colon between them"
        ),
        None => String::from_str(alloc, MANY_MESHES),
    }
}
