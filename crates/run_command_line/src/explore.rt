//! The request of `explore`.
ghost use Rattle.std.specs.Prelude.{◌≡◌, option_map};
ghost use Rattle.clap.specs.Words.{found_of, rows_of};
ghost use Rattle.run_command_line.specs.Conditions.{ConditionTexts, conditions_of};
ghost use Rattle.run_command_line.specs.CommandLine.{asking, explore_of, explored_in, explored_of, is_of_steps, told_of};

use crate::mesh_texts::meshes;
use crate::options::{ALLOW_NO_MESH, CANCEL, PROGRESS, STATES};
use crate::told::told;
use crate::values::{is_given, number_if_given, small_number};
use crate::{Args, Conditions, ExploreArgs, Told};
use clap::ArgMatches;

/// Returns the request of `explore` for this file, with these conditions. Returns `None` if the program doesn't accept
/// its options.
pub(crate) fn explore<'a>(
    file: &'a str,
    matches: &ArgMatches<'a>,
    conditions: &Conditions<'a>,
) -> Option<Args<'a>>
    ensures { option_map (asking (conditions_of conditions.now)) result
        ≡ option_map (explore_of file.now) (explored_in (conditions_of conditions.now) (rows_of (found_of matches.now))) }
{
    let explored = explored(matches, conditions)?;
    Some(Args::Explore(file, explored))
}

/// Returns the arguments of `explore`, or `None` if the program doesn't accept its options. A report on steps is of
/// meshes that aren't cancelled.
fn explored<'a>(matches: &ArgMatches<'a>, conditions: &Conditions<'a>) -> Option<ExploreArgs<'a>>
    ensures { option_map (explored_of (conditions_of conditions.now)) result
        ≡ explored_in (conditions_of conditions.now) (rows_of (found_of matches.now)) }
{
    let meshes = meshes(matches)?;
    let cancel = number_if_given(matches, CANCEL)?;
    let states = small_number(matches, STATES)?;
    let told = told(matches, conditions)?;
    let allows_no_mesh = is_given(matches, ALLOW_NO_MESH)?;
    let is_watched = is_given(matches, PROGRESS)?;
    if cancel.is_some() && is_of_steps(&told) {
        return None;
    }
    Some(ExploreArgs {
        meshes,
        cancel,
        states,
        told,
        allows_no_mesh,
        is_watched,
    })
}

/// Whether a report on meshes that are made by a list of steps is asked for.
fn is_of_steps(told: &Told<'_>) -> bool
    ensures { (conditions : ConditionTexts) → result ≡ is_of_steps (told_of conditions told.now) }
{
    matches!(told, Told::Steps(_))
}
