//! The arguments of `live` in the matches of `clap`.
ghost use Rattle.std.specs.Prelude.{◌≡◌, option_map};
ghost use Rattle.clap.specs.Words.{found_of, rows_of};
ghost use Rattle.run_command_line.specs.CommandLine.{sizes_in, sizes_of};

use crate::LiveArgs;
use crate::options::{HISTORY, PAGES, SESSION_WORKERS};
use crate::values::small_number;
use clap::ArgMatches;

/// Returns the arguments of `live`, or `None` if a number isn't in its range.
pub(crate) fn sizes<'a>(matches: &ArgMatches<'a>) -> Option<LiveArgs>
    ensures { option_map sizes_of result ≡ sizes_in (rows_of (found_of matches.now)) }
{
    let pages = small_number(matches, PAGES)?;
    let history = small_number(matches, HISTORY)?;
    let workers = small_number(matches, SESSION_WORKERS)?;
    Some(LiveArgs {
        pages,
        history,
        workers,
    })
}
