//! The selection of what an exploration prints.
ghost use Rattle.std.specs.Prelude.{◌≡◌, option_map};
ghost use Rattle.clap.specs.Words.{found_of, rows_of};
ghost use Rattle.model_otherwise.specs.Timed.{is_plain, is_whole};
ghost use Rattle.run_command_line.specs.Conditions.{ConditionTexts, conditions_of};
ghost use Rattle.run_command_line.specs.CommandLine.{asks_verdict, free_making, lacks_client, listing_told_in, load_making, number_of, other_list, shown_answer_of, shown_behind, shown_given_in, shown_of_text, store_making, timing_in, told_by, told_in, told_of, told_with};

use crate::options::{
    ANY, EXPECT, FREE, LOAD, RIGHT_STEPS, SHOW, SPLIT, STALE, STEPS, STORE, WITNESS,
};
use crate::values::{BETWEEN, number_if_given, spelt_number};
use crate::{Conditions, ShownArgs, StepsArgs, Told};
use clap::ArgMatches;
use model_otherwise::{Making, Timing};

/// The greatest number of a line in an option.
const LAST_LINE: u64 = 4294967295;

/// Returns the selection of what an exploration prints. Returns `None` if more than one of an outcome, an answer, a
/// verdict and a report on steps is asked for, if a number, the answer or how an access is made can't be read, or if
/// accesses are made in two moves without a client.
pub(crate) fn told<'a>(matches: &ArgMatches<'a>, conditions: &Conditions<'a>) -> Option<Told<'a>>
    ensures { option_map (told_of (conditions_of conditions.now)) result
        ≡ told_in (conditions_of conditions.now) (rows_of (found_of matches.now)) }
{
    let told = listing_told(matches, conditions)?;
    let commands = number_if_given(matches, ANY)?;
    let timing = timing(matches)?;
    told_with(other_list(matches.get_str(STEPS)), commands, timing, told)
}

/// Returns the list of steps that a text names. Returns `None` for the steps of the heap's own meshes.
pub(crate) fn other_list<'a>(text: Option<&'a str>) -> Option<&'a str>
    ensures { option_map (λ list. list.now) result ≡ other_list (option_map (λ list. list.now) text.entry) }
{
    let list = text?;
    if list == RIGHT_STEPS {
        return None;
    }
    Some(list)
}

/// Returns how loads, stores and frees are made, which is in one move if their options aren't given. Returns `None` if
/// the text of an option can't be read.
pub(crate) fn timing<'a>(matches: &ArgMatches<'a>) -> Option<Timing>
    ensures { result ≡ timing_in (rows_of (found_of matches.now)) }
{
    let stores = store_making(matches.get_str(STORE))?;
    let loads = load_making(matches.get_str(LOAD))?;
    let frees = free_making(matches.get_str(FREE))?;
    Some(Timing {
        loads,
        stores,
        frees,
    })
}

/// Returns how stores are made, by the text of `--store`, or `None` if the text can't be read.
fn store_making(text: Option<&str>) -> Option<Making>
    ensures { result ≡ store_making (option_map (λ text. text.now) text.entry) }
{
    match text {
        None => Some(Making::Whole),
        Some(SPLIT) => Some(Making::Split),
        Some(STALE) => Some(Making::Stale),
        Some(_) => None,
    }
}

/// Returns how loads are made, by the text of `--load`, or `None` if the text can't be read.
fn load_making(text: Option<&str>) -> Option<Making>
    ensures { result ≡ load_making (option_map (λ text. text.now) text.entry) }
{
    match text {
        None => Some(Making::Whole),
        Some(STALE) => Some(Making::Stale),
        Some(_) => None,
    }
}

/// Returns how frees are made, by the text of `--free`, or `None` if the text can't be read.
fn free_making(text: Option<&str>) -> Option<Making>
    ensures { result ≡ free_making (option_map (λ text. text.now) text.entry) }
{
    match text {
        None => Some(Making::Whole),
        Some(SPLIT) => Some(Making::Split),
        Some(_) => None,
    }
}

/// Whether each access is made in one move.
pub(crate) fn is_plain(timing: Timing) -> bool
    ensures { result ≡ is_plain timing }
{
    is_whole(timing.loads) && is_whole(timing.stores) && is_whole(timing.frees)
}

/// Whether an access that is made so is one move.
fn is_whole(making: Making) -> bool
    ensures { result ≡ is_whole making }
{
    matches!(making, Making::Whole)
}

/// Whether accesses are made in two moves although no client is asked for.
pub(crate) fn lacks_client(commands: Option<u32>, timing: Timing) -> bool
    ensures { result ≡ lacks_client commands timing }
{
    commands.is_none() && !is_plain(timing)
}

/// Returns the selection of what an exploration prints, if `told` is asked for of outcomes. A report on steps is
/// printed if a list of steps or a client is asked for. Returns `None` if `told` asks for something else too, or if
/// accesses are made in two moves without a client.
fn told_with<'a>(
    list: Option<&'a str>,
    commands: Option<u32>,
    timing: Timing,
    told: Told<'a>,
) -> Option<Told<'a>>
    ensures { (conditions : ConditionTexts) → option_map (told_of conditions) result
        ≡ told_with (option_map (λ list. list.now) list.entry) commands timing (told_of conditions told.entry) }
{
    if lacks_client(commands, timing) {
        return None;
    }
    if list.is_none() && commands.is_none() {
        return Some(told);
    }
    match told {
        Told::All => Some(Told::Steps(StepsArgs {
            list,
            commands,
            timing,
            picture: None,
        })),
        _ => None,
    }
}

/// Returns the selection of what an exploration prints, without a list of steps and a client. Returns `None` if more
/// than one of an outcome, an answer and a verdict is asked for, or if the outcome or the answer can't be read.
fn listing_told<'a>(matches: &ArgMatches<'a>, conditions: &Conditions<'a>) -> Option<Told<'a>>
    ensures { option_map (told_of (conditions_of conditions.now)) result
        ≡ listing_told_in (conditions_of conditions.now) (rows_of (found_of matches.now)) }
{
    let witness = number_if_given(matches, WITNESS)?;
    let shown = shown_if_given(matches)?;
    let expect = matches.get_str(EXPECT);
    told_by(witness, shown, is_verdict(expect, conditions), expect)
}

/// Whether a verdict is asked for, by `--expect` or a condition.
fn is_verdict<'a>(expect: Option<&'a str>, conditions: &Conditions<'a>) -> bool
    ensures { result ≡ asks_verdict (option_map (λ path. path.now) expect.entry) (conditions_of conditions.now) }
{
    expect.is_some() || conditions.has_condition()
}

/// Returns the selection of what an exploration prints. Returns `None` if more than one of an outcome, an answer and a
/// verdict is asked for.
fn told_by<'a>(
    witness: Option<u32>,
    shown: Option<ShownArgs<'a>>,
    is_verdict: bool,
    expect: Option<&'a str>,
) -> Option<Told<'a>>
    ensures { (conditions : ConditionTexts) → option_map (told_of conditions) result
        ≡ told_by witness (option_map shown_answer_of shown.entry) is_verdict
        (record { expect = option_map (λ path. path.now) expect.entry; conditions = conditions }) }
{
    match (witness, shown, is_verdict) {
        (None, None, true) => Some(Told::Verdict(expect)),
        (None, None, false) => Some(Told::All),
        (Some(number), None, false) => Some(Told::Outcome(number)),
        (None, Some(shown), false) => Some(Told::Answer(shown)),
        (Some(_), None, true) | (None, Some(_), true) | (Some(_), Some(_), _) => None,
    }
}

/// Returns the answer that `--show` names, or `Some(None)` if `--show` isn't given. Returns `None` if the text of
/// `--show` can't be read.
fn shown_if_given<'a>(matches: &ArgMatches<'a>) -> Option<Option<ShownArgs<'a>>>
    ensures { option_map (option_map shown_answer_of) result ≡ shown_given_in (rows_of (found_of matches.now)) }
{
    match matches.get_str(SHOW) {
        Some(text) => Some(Some(shown_answer(text)?)),
        None => Some(None),
    }
}

/// Returns the answer that a text names: a line, an answer and a phase, with colons between them. Returns `None` if the
/// text can't be read.
pub(crate) fn shown_answer(text: &str) -> Option<ShownArgs<'_>>
    ensures { option_map shown_answer_of result ≡ shown_of_text text.now }
{
    let (line, behind) = text.split_once(BETWEEN)?;
    let line = line_number(line)?;
    shown_at(line, behind)
}

/// Returns the answer at a line that a text names: an answer and a phase, with a colon between them. Returns `None` if
/// the text has no colon or no phase.
fn shown_at(line: u32, text: &str) -> Option<ShownArgs<'_>>
    ensures { option_map shown_answer_of result ≡ shown_behind line text.now }
{
    let (answer, phase) = text.split_once(BETWEEN)?;
    if phase.is_empty() {
        return None;
    }
    Some(ShownArgs {
        line,
        answer,
        phase,
    })
}

/// Reads the number of a line, 1 to 4294967295, in the form of a number option of `clap`. Returns `None` if the text is
/// no such number.
fn line_number(text: &str) -> Option<u32>
    ensures { result ≡ number_of 1 4294967295 text.now }
{
    spelt_number(text, 1, LAST_LINE)
}
