//! The values of options in the matches of `clap`.
ghost use Rattle.std.specs.Prelude.{◌<◌, ◌^◌, ◌≡◌, ◌≤◌, IfSome, is_some};
ghost use Rattle.clap.specs.Words.{first_of, found_of, rows_of};
ghost use Rattle.run_command_line.specs.CommandLine.{flag_in, given_in, is_recorded_in, number_in, number_of};

use crate::options::{NumberRange, RECORDED};
use clap::ArgMatches;

/// The separator between the two groups of a mesh, and between the line, the answer and the phase of `--show`.
pub(crate) const BETWEEN: char = ':';

/// Returns the number of an option. Returns `None` if the option has no number, or if the number isn't in the range.
pub(crate) fn number<'a>(matches: &ArgMatches<'a>, range: NumberRange) -> Option<u64>
    ensures value { result ≡ number_in range.name.now range.least range.most (rows_of (found_of matches.now)) }
    ensures range { IfSome result (λ number. (range.least ≤ number) × (number ≤ range.most)) }
{
    let number = matches.get_one::<u64>(range.name)?;
    if range.least <= number && number <= range.most {
        Some(number)
    } else {
        None
    }
}

/// Returns the number of an option, as `number` does, for a range of numbers of 32 bits.
pub(crate) fn small_number<'a>(matches: &ArgMatches<'a>, range: NumberRange) -> Option<u32>
    requires { range.most < 2 ^ 32 }
    ensures value { result ≡ number_in range.name.now range.least range.most (rows_of (found_of matches.now)) }
    ensures range { IfSome result (λ number. (range.least ≤ number) × (number ≤ range.most)) }
{
    let number = number(matches, range)?;
    Some(number as u32)
}

/// Returns the number that is given for an option, or `Some(None)` if the option isn't given. Returns `None` if the
/// number isn't in the range.
pub(crate) fn number_if_given<'a>(
    matches: &ArgMatches<'a>,
    range: NumberRange,
) -> Option<Option<u32>>
    requires { range.most < 2 ^ 32 }
    ensures value { result ≡ given_in range.name.now range.least range.most (rows_of (found_of matches.now)) }
    ensures range { IfSome result (λ given. IfSome given (λ number. (range.least ≤ number) × (number ≤ range.most))) }
{
    match matches.get_str(range.name) {
        Some(_) => Some(Some(small_number(matches, range)?)),
        None => Some(None),
    }
}

/// Whether an option is given that has no default.
pub(crate) fn has_value<'a>(matches: &ArgMatches<'a>, name: &str) -> bool
    ensures { result ≡ is_some (first_of name.now (rows_of (found_of matches.now))) }
{
    match matches.get_str(name) {
        Some(_) => true,
        None => false,
    }
}

/// Whether a recorded history is asked for. Returns `None` if the subcommand has no such flag.
pub(crate) fn is_recorded<'a>(matches: &ArgMatches<'a>) -> Option<bool>
    ensures { result ≡ is_recorded_in (rows_of (found_of matches.now)) }
{
    is_given(matches, RECORDED)
}

/// Whether a flag is given. `clap` sets the value of a flag to `true` if it is given, and to `false` otherwise. Returns
/// `None` if the flag has no value.
pub(crate) fn is_given<'a>(matches: &ArgMatches<'a>, flag: &str) -> Option<bool>
    ensures { result ≡ flag_in flag.now (rows_of (found_of matches.now)) }
{
    let value = matches.get_str(flag)?;
    Some(value == "true")
}

/// Reads a number from `least` to `most`, in the form of a number option of `clap`. Returns `None` if the text is no
/// such number.
pub(crate) fn spelt_number(text: &str, least: u64, most: u64) -> Option<u32>
    requires { most < 2 ^ 32 }
    ensures { result ≡ number_of least most text.now }
{
    let number = text.parse::<u64>().ok()?;
    if least <= number && number <= most {
        Some(number as u32)
    } else {
        None
    }
}
