//! The request of `replay`.
ghost use Rattle.std.specs.Prelude.{◌≡◌, option_map};
ghost use Rattle.clap.specs.Words.{found_of, rows_of};
ghost use Rattle.run_command_line.specs.Conditions.{ConditionTexts};
ghost use Rattle.run_command_line.specs.CommandLine.{asking, replay_by, replay_in};

use crate::Args;
use crate::options::ECHO;
use crate::values::{is_given, is_recorded};
use clap::ArgMatches;

/// Returns the request of `replay` for this file. Returns `None` if both `--history` and `--echo` are given.
pub(crate) fn replay<'a>(file: &'a str, matches: &ArgMatches<'a>) -> Option<Args<'a>>
    ensures { (conditions : ConditionTexts) → option_map (asking conditions) result
        ≡ replay_in file.now (rows_of (found_of matches.now)) }
{
    let is_recorded = is_recorded(matches)?;
    let is_echoed = is_given(matches, ECHO)?;
    replay_of(file, is_recorded, is_echoed)
}

/// Returns the request for a replay of a file. The replay prints a recorded history if `is_recorded` is true, the lines
/// of the plan before their answers if `is_echoed` is true, and otherwise the answers alone. Returns `None` if both are
/// true.
fn replay_of(file: &str, is_recorded: bool, is_echoed: bool) -> Option<Args<'_>>
    ensures { (conditions : ConditionTexts) → option_map (asking conditions) result
        ≡ replay_by file.now is_recorded is_echoed }
{
    match (is_recorded, is_echoed) {
        (true, true) => None,
        (true, false) => Some(Args::ReplayHistory(file)),
        (false, true) => Some(Args::ReplayEcho(file)),
        (false, false) => Some(Args::Replay(file)),
    }
}
