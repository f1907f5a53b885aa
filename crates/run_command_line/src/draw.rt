//! The request of `draw`.
ghost use Rattle.std.specs.Prelude.{◌≡◌, ◌≤◌, IfSome, option_map};
ghost use Rattle.clap.specs.Words.{found_of, rows_of};
ghost use Rattle.run_command_line.specs.Conditions.{ConditionTexts};
ghost use Rattle.run_command_line.specs.CommandLine.{asking, columns_in, draw_by, draw_in, drawn_plan_in, has_steps_option, shown_in, shown_of};

use crate::draw_steps::draw_steps;
use crate::options::{ANY, COLUMNS, FREE, FROM, HTML, LOAD, MESH, STEPS, STORE, TEXT, TO};
use crate::values::{has_value, is_given, number_if_given, small_number};
use crate::{Args, DrawArgs};
use clap::ArgMatches;

/// Returns the request of `draw` for this file: with `--mesh` the exploration whose shortest plan is drawn, and
/// otherwise the plan of the file. Returns `None` if the program doesn't accept its options.
pub(crate) fn draw<'a>(file: &'a str, matches: &ArgMatches<'a>) -> Option<Args<'a>>
    ensures { (conditions : ConditionTexts) → option_map (asking conditions) result
        ≡ draw_in file.now (rows_of (found_of matches.now)) }
{
    if has_value(matches, MESH) {
        return draw_steps(file, matches);
    }
    if has_steps_option(matches) {
        return None;
    }
    drawn_plan(file, matches)
}

/// Whether an option is given that needs a mesh: `--steps`, `--any`, `--store`, `--load` or `--free`.
pub(crate) fn has_steps_option<'a>(matches: &ArgMatches<'a>) -> bool
    ensures { result ≡ has_steps_option (rows_of (found_of matches.now)) }
{
    has_value(matches, STEPS)
        || has_value(matches, ANY.name)
        || has_value(matches, STORE)
        || has_value(matches, LOAD)
        || has_value(matches, FREE)
}

/// Returns the request for the plan of a file. Returns `None` if a number isn't in its range, if `--from` is greater
/// than `--to`, or if more than one of `--columns`, `--text` and `--html` is given.
fn drawn_plan<'a>(file: &'a str, matches: &ArgMatches<'a>) -> Option<Args<'a>>
    ensures { (conditions : ConditionTexts) → option_map (asking conditions) result
        ≡ drawn_plan_in file.now (rows_of (found_of matches.now)) }
{
    let shown = shown(matches)?;
    let is_text = is_given(matches, TEXT)?;
    let is_page = is_given(matches, HTML)?;
    let has_columns = has_value(matches, COLUMNS.name);
    draw_of(file, shown, is_text, is_page, has_columns)
}

/// Returns the request for the plan of a file: as text if `is_text` is true, as a page if `is_page` is true, and
/// otherwise as a picture. Returns `None` if both are true, or if a text or a page has columns.
fn draw_of(
    file: &str,
    shown: DrawArgs,
    is_text: bool,
    is_page: bool,
    has_columns: bool,
) -> Option<Args<'_>>
    ensures { (conditions : ConditionTexts) → option_map (asking conditions) result
        ≡ draw_by file.now (shown_of shown) is_text is_page has_columns }
{
    match (is_text, is_page) {
        (false, false) => Some(Args::Draw(file, shown)),
        (true, false) if !has_columns => Some(Args::DrawText(file, shown)),
        (false, true) if !has_columns => Some(Args::DrawHtml(file, shown)),
        _ => None,
    }
}

/// Returns the arguments of `draw`. Returns `None` if a number isn't in its range, or if `--from` is greater than
/// `--to`.
pub(crate) fn shown<'a>(matches: &ArgMatches<'a>) -> Option<DrawArgs>
    ensures { option_map shown_of result ≡ shown_in (rows_of (found_of matches.now)) }
{
    let from = small_number(matches, FROM)?;
    let to = small_number(matches, TO)?;
    let columns = columns(matches)?;
    if to < from {
        return None;
    }
    Some(DrawArgs { from, to, columns })
}

/// Returns the number of columns, which is 0 if none is given. Returns `None` if the number isn't in its range.
fn columns<'a>(matches: &ArgMatches<'a>) -> Option<u32>
    ensures value { result ≡ columns_in (rows_of (found_of matches.now)) }
    ensures range { IfSome result (λ columns. columns ≤ 64) }
{
    match number_if_given(matches, COLUMNS)? {
        Some(columns) => Some(columns),
        None => Some(0),
    }
}
