//! The request of `check`.
ghost use Rattle.std.specs.Prelude.{◌≡◌, option_map};
ghost use Rattle.clap.specs.Words.{found_of, rows_of};
ghost use Rattle.run_command_line.specs.Conditions.{ConditionTexts};
ghost use Rattle.run_command_line.specs.CommandLine.{asking, check_of, checked_in, checked_of};

use crate::options::{CONFIGURATIONS, ORDER, WRONG_CALLS};
use crate::values::{is_given, small_number};
use crate::{Args, CheckArgs};
use clap::ArgMatches;

/// Returns the request of `check` for this file. Returns `None` if the number of configurations isn't in its range.
pub(crate) fn check<'a>(file: &'a str, matches: &ArgMatches<'a>) -> Option<Args<'a>>
    ensures { (conditions : ConditionTexts) → option_map (asking conditions) result
        ≡ option_map (check_of file.now) (checked_in (rows_of (found_of matches.now))) }
{
    let checked = checked(matches)?;
    Some(Args::Check(file, checked))
}

/// Returns the arguments of `check`, or `None` if the number of configurations isn't in its range.
fn checked<'a>(matches: &ArgMatches<'a>) -> Option<CheckArgs>
    ensures { option_map checked_of result ≡ checked_in (rows_of (found_of matches.now)) }
{
    let configurations = small_number(matches, CONFIGURATIONS)?;
    let is_ordered = is_given(matches, ORDER)?;
    let is_witnessed = is_given(matches, WRONG_CALLS)?;
    Some(CheckArgs {
        configurations,
        is_ordered,
        is_witnessed,
    })
}
