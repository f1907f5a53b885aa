//! The request of `savings`.
ghost use Rattle.std.specs.Prelude.{◌≡◌, option_map};
ghost use Rattle.clap.specs.Words.{found_of, rows_of};
ghost use Rattle.run_command_line.specs.Conditions.{ConditionTexts};
ghost use Rattle.run_command_line.specs.CommandLine.{asking, compared_in, compared_of, form_in, form_of, rounds_in, rounds_of, savings_of, seed_in};

use crate::options::{
    CSV, EVERY, FIRST_CALL, FIRST_FIT, LAST_CALL, MEMBERS, OBJECT_SEED, PROBE, SHARE, SVG,
};
use crate::values::{is_given, number, number_if_given, small_number};
use crate::{Args, FiguresForm, RoundsAsked, SavingsArgs};
use clap::ArgMatches;

/// The seed of the objects' words if neither a seed nor `--first-fit` is given.
const SEED_NOT_GIVEN: u64 = 1;

/// The share of `--share` if neither it nor `--every` is given.
const SHARE_NOT_GIVEN: u32 = 8;

/// Returns the request of `savings` for this file. Returns `None` if the program doesn't accept its options.
pub(crate) fn savings<'a>(file: &'a str, matches: &ArgMatches<'a>) -> Option<Args<'a>>
    ensures { (conditions : ConditionTexts) → option_map (asking conditions) result
        ≡ option_map (savings_of file.now) (compared_in (rows_of (found_of matches.now))) }
{
    let compared = compared(matches)?;
    Some(Args::Savings(file, compared))
}

/// Returns the arguments of `savings`. Returns `None` if a number isn't in its range, if `--from` is greater than
/// `--to`, or if two options are given of which each excludes the other.
fn compared<'a>(matches: &ArgMatches<'a>) -> Option<SavingsArgs>
    ensures { option_map compared_of result ≡ compared_in (rows_of (found_of matches.now)) }
{
    let rounds = rounds(matches)?;
    let members = small_number(matches, MEMBERS)?;
    let probe = small_number(matches, PROBE)?;
    let seed = seed(matches)?;
    let from = small_number(matches, FIRST_CALL)?;
    let to = small_number(matches, LAST_CALL)?;
    let form = form(matches)?;
    if to < from {
        return None;
    }
    Some(SavingsArgs {
        rounds,
        members,
        probe,
        seed,
        from,
        to,
        form,
    })
}

/// Returns the seed of the objects' words, which is 1 if none is given. Returns `Some(None)` if `--first-fit` sets all
/// words to 0. Returns `None` if both a seed and `--first-fit` are given, or if the seed can't be read.
fn seed<'a>(matches: &ArgMatches<'a>) -> Option<Option<u64>>
    ensures { result ≡ seed_in (rows_of (found_of matches.now)) }
{
    let is_first_fit = is_given(matches, FIRST_FIT)?;
    match matches.get_str(OBJECT_SEED.name) {
        Some(_) if is_first_fit => None,
        Some(_) => Some(Some(number(matches, OBJECT_SEED)?)),
        None if is_first_fit => Some(None),
        None => Some(Some(SEED_NOT_GIVEN)),
    }
}

/// Returns when rounds are made. Returns `None` if both `--every` and `--share` are given, or if a number isn't in its
/// range.
fn rounds<'a>(matches: &ArgMatches<'a>) -> Option<RoundsAsked>
    ensures { option_map rounds_of result ≡ rounds_in (rows_of (found_of matches.now)) }
{
    let every = number_if_given(matches, EVERY)?;
    let share = number_if_given(matches, SHARE)?;
    match (every, share) {
        (Some(_), Some(_)) => None,
        (Some(frees), None) => Some(RoundsAsked::Every(frees)),
        (None, Some(part)) => Some(RoundsAsked::Share(part)),
        (None, None) => Some(RoundsAsked::Share(SHARE_NOT_GIVEN)),
    }
}

/// Returns the form of the figures. Returns `None` if both `--svg` and `--csv` are given.
fn form<'a>(matches: &ArgMatches<'a>) -> Option<FiguresForm>
    ensures { option_map form_of result ≡ form_in (rows_of (found_of matches.now)) }
{
    let is_plot = is_given(matches, SVG)?;
    let is_csv = is_given(matches, CSV)?;
    match (is_plot, is_csv) {
        (true, true) => None,
        (true, false) => Some(FiguresForm::Plot),
        (false, true) => Some(FiguresForm::Csv),
        (false, false) => Some(FiguresForm::Table),
    }
}
