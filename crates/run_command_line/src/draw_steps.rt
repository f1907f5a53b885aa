//! The request of `draw` for the shortest plan of an exploration.
ghost use Rattle.std.specs.Prelude.{◌≡◌, option_map};
ghost use Rattle.clap.specs.Words.{found_of, rows_of};
ghost use Rattle.run_command_line.specs.Conditions.{ConditionTexts};
ghost use Rattle.run_command_line.specs.CommandLine.{asking, drawn_exploration_in, drawn_steps_in, explore_of, explored_of, is_whole_plan, picture_by, picture_in, shown_of, stepped_of};

use crate::draw::shown;
use crate::mesh_texts::meshes;
use crate::options::{ANY, FROM, HTML, STATES, STEPS, TEXT, TO};
use crate::told::{lacks_client, other_list, timing};
use crate::values::{is_given, number_if_given, small_number};
use crate::{Args, DrawArgs, ExploreArgs, StepsArgs, Told};
use clap::ArgMatches;

/// Returns the request of `draw` with `--mesh` for this file. Returns `None` if the program doesn't accept its options.
pub(crate) fn draw_steps<'a>(file: &'a str, matches: &ArgMatches<'a>) -> Option<Args<'a>>
    ensures { (conditions : ConditionTexts) → option_map (asking conditions) result
        ≡ option_map (explore_of file.now) (drawn_exploration_in (rows_of (found_of matches.now))) }
{
    let explored = explored(matches)?;
    Some(Args::Explore(file, explored))
}

/// Returns the exploration whose shortest plan is drawn. Returns `None` if a mesh can't be read, if a number isn't in
/// its range, or if the steps or the picture can't be had as asked for.
fn explored<'a>(matches: &ArgMatches<'a>) -> Option<ExploreArgs<'a>>
    ensures { (conditions : ConditionTexts) → option_map (explored_of conditions) result
        ≡ drawn_exploration_in (rows_of (found_of matches.now)) }
{
    let meshes = meshes(matches)?;
    let states = small_number(matches, STATES)?;
    let steps = steps(matches)?;
    Some(ExploreArgs {
        meshes,
        cancel: None,
        states,
        told: Told::Steps(steps),
        allows_no_mesh: true,
        is_watched: false,
    })
}

/// Returns the list of steps, the client and the picture that are asked for. Returns `None` if one of them can't be
/// read, or if accesses are made in two moves without a client.
fn steps<'a>(matches: &ArgMatches<'a>) -> Option<StepsArgs<'a>>
    ensures { option_map stepped_of result ≡ drawn_steps_in (rows_of (found_of matches.now)) }
{
    let columns = picture(matches)?;
    let commands = number_if_given(matches, ANY)?;
    let timing = timing(matches)?;
    if lacks_client(commands, timing) {
        return None;
    }
    Some(StepsArgs {
        list: other_list(matches.get_str(STEPS)),
        commands,
        timing,
        picture: Some(columns),
    })
}

/// Returns the number of columns of the picture of a shortest plan, which is 0 if none is given. Returns `None` if a
/// number isn't in its range, or if a part of the plan, a text or a page is asked for.
fn picture<'a>(matches: &ArgMatches<'a>) -> Option<u32>
    ensures { result ≡ picture_in (rows_of (found_of matches.now)) }
{
    let shown = shown(matches)?;
    let is_text = is_given(matches, TEXT)?;
    let is_page = is_given(matches, HTML)?;
    picture_by(shown, is_text, is_page)
}

/// Returns the number of columns of a picture. Returns `None` if a text or a page is asked for, or not all lines.
fn picture_by(shown: DrawArgs, is_text: bool, is_page: bool) -> Option<u32>
    ensures { result ≡ picture_by (shown_of shown) is_text is_page }
{
    if is_text || is_page || !is_whole(shown) {
        return None;
    }
    Some(shown.columns)
}

/// Whether all lines of a plan are drawn.
fn is_whole(shown: DrawArgs) -> bool
    ensures { result ≡ is_whole_plan (shown_of shown) }
{
    shown.from as u64 == FROM.least && shown.to as u64 == TO.most
}
