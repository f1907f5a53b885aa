//! The verdict on a listing, and its text.
ghost use Rattle.std.specs.Prelude.{◌≡◌, ◌++◌, ◌∷◌, [], Some, IfOk, OnOk, codes, decimal, false, if◌then◌else◌, slice_get, slice_index_or};
ghost use Rattle.std.specs.Option.{option_copied};
ghost use Rattle.model_jobs.specs.Texts.{ended};
ghost use Rattle.explore_report.specs.OutcomeTexts.{printed_order};
ghost use Rattle.explore_verdict.specs.Judged.{is_as_expected};
ghost use Rattle.explore_verdict.specs.Pieces.{HasWritten, plain};
ghost use Rattle.explore_verdict.specs.Runs.{begun_pieces, counted, differing, each_behind, expected_pieces, is_well, meets_expected, shown_at, unexpected_pieces};

use crate::answers::answers;
use crate::block::Block;
use crate::condition::Condition;
use crate::conditions::add_conditions;
use crate::expected::blocks;
use crate::judging::{Differences, compared, listed_answers};
use explore_interleavings::Explorer;
use explore_report::{Listing, Outcome, add_outcome, printed_order};
use states_reach::Reached;
use std::alloc::{AllocError, Global};
use text_words::add_decimal;

/// A verdict, and its text.
#[derive(Drop)]
pub(crate) struct Report {
    pub well: bool,
    pub text: Vec<u8>,
}

/// Returns the verdict on a listing, with its text: whether it is as a text lists it, and whether the conditions hold.
pub(crate) fn report_of(
    alloc: Global,
    reached: &Reached<Explorer<'_>>,
    listing: &Listing,
    expected: Option<&[u8]>,
    conditions: &[Condition],
) -> Result<Report, AllocError>
    ensures well { IfOk result (λ report. report.well
        ≡ is_well reached.now.system.setting reached.now.system.states listing.now conditions.now (option_copied expected.entry)) }
    ensures written { IfOk result (λ report. HasWritten reached.now.system.setting reached.now
        (begun_pieces reached.now.system.setting reached.now.system.states listing.now conditions.now (option_copied expected.entry))
        [] report.text.items) }
{
    let outcomes = listing.outcomes.as_slice();
    let order = printed_order(alloc, reached, outcomes)?;
    let order = order.as_slice();
    let mut text = Vec::new(alloc);
    let is_expected = add_expected(alloc, &mut text, reached, listing, order, expected)?;
    let hold = add_conditions(alloc, &mut text, reached, outcomes, order, conditions)?;
    Ok(Report {
        well: is_expected & hold,
        text,
    })
}

/// Adds what a verdict says of what a text lists, if there is a text. Returns whether the listing is as it lists.
fn add_expected(
    alloc: Global,
    text: &mut Vec<u8>,
    reached: &Reached<Explorer<'_>>,
    listing: &Listing,
    order: &[usize],
    expected: Option<&[u8]>,
) -> Result<bool, AllocError>
    requires { order.now ≡ printed_order reached.now.system.states listing.now.outcomes.items }
    ensures is { IfOk result (λ is. is
        ≡ meets_expected reached.now.system.setting reached.now.system.states listing.now (option_copied expected.entry)) }
    ensures written { OnOk result (HasWritten reached.now.system.setting reached.now
        (expected_pieces reached.now.system.setting reached.now.system.states listing.now (option_copied expected.entry))
        text.old.items text.new.items) }
{
    match expected {
        Some(expected) => add_compared(alloc, text, reached, listing, order, expected),
        None => Ok(true),
    }
}

/// Adds what a verdict says of what a text lists. Returns whether the listing is as it lists.
fn add_compared(
    alloc: Global,
    text: &mut Vec<u8>,
    reached: &Reached<Explorer<'_>>,
    listing: &Listing,
    order: &[usize],
    expected: &[u8],
) -> Result<bool, AllocError>
    requires { order.now ≡ printed_order reached.now.system.states listing.now.outcomes.items }
    ensures is { IfOk result (λ is. is
        ≡ is_as_expected reached.now.system.setting reached.now.system.states listing.now expected.now) }
    ensures written { OnOk result (HasWritten reached.now.system.setting reached.now
        (expected_pieces reached.now.system.setting reached.now.system.states listing.now (Some expected.now))
        text.old.items text.new.items) }
{
    let answers = answers(alloc, expected)?;
    let blocks = blocks(alloc, expected)?;
    let listed = listed_answers(alloc, reached, listing)?;
    let differences = compared(
        alloc,
        reached,
        listing,
        answers.as_slice(),
        listed.as_slice(),
        blocks.as_slice(),
    )?;
    if differences.are_none() {
        let outcomes = listing.outcomes.as_slice().len();
        add_counted(text, blocks.as_slice(), outcomes, listed.as_slice().len())?;
        return Ok(true);
    }
    add_differences(
        alloc,
        text,
        reached,
        listing.outcomes.as_slice(),
        order,
        &differences,
    )?;
    Ok(false)
}

/// Adds the line of a listing that is as expected.
fn add_counted(
    text: &mut Vec<u8>,
    blocks: &[Block],
    outcomes: usize,
    answers: usize,
) -> Result<(), AllocError>
    ensures { OnOk result (text.new.items
        ≡ text.old.items ++ ended (codes "as expected: " ++ counted blocks.now outcomes answers)) }
{
    if blocks.is_empty() {
        add_count(text, b"as expected: ", answers, b" answers")?;
    } else {
        add_count(text, b"as expected: ", outcomes, b" outcomes")?;
    }
    Ok(())
}

/// Adds a line of a number between words.
fn add_count(
    text: &mut Vec<u8>,
    front: &[u8],
    number: usize,
    behind: &[u8],
) -> Result<(), AllocError>
    ensures { OnOk result (text.new.items ≡ text.old.items ++ ended (front.now ++ (decimal number ++ behind.now))) }
{
    text.extend_from_slice(front)?;
    add_decimal(text, number as u64)?;
    text.extend_from_slice(behind)?;
    text.push(b'\n')?;
    Ok(())
}

/// Adds the differences between a listing and what a text lists: first those of answers, then those of outcomes.
fn add_differences(
    alloc: Global,
    text: &mut Vec<u8>,
    reached: &Reached<Explorer<'_>>,
    outcomes: &[Outcome],
    order: &[usize],
    differences: &Differences,
) -> Result<(), AllocError>
    ensures { OnOk result (HasWritten reached.now.system.setting reached.now
        (plain (differing differences.now.missing_answers.items differences.now.unexpected_answers.items differences.now.missing.items)
        ∷ unexpected_pieces outcomes.now differences.now.unexpected.items 0 order.now)
        text.old.items text.new.items) }
{
    add_each(text, b"missing:\n", differences.missing_answers.as_slice())?;
    add_each(
        text,
        b"unexpected:\n",
        differences.unexpected_answers.as_slice(),
    )?;
    add_each(text, b"missing:\n", differences.missing.as_slice())?;
    add_unexpected(
        alloc,
        text,
        reached,
        outcomes,
        order,
        differences.unexpected.as_slice(),
    )
}

/// Adds texts, each behind a line.
fn add_each(text: &mut Vec<u8>, line: &[u8], texts: &[Block]) -> Result<(), AllocError>
    ensures { OnOk result (text.new.items ≡ text.old.items ++ each_behind line.now texts.now) }
{
    let mut rest = texts;
    while let [one, behind @ ..] = rest {
        text.extend_from_slice(line)?;
        text.extend_from_slice(one.as_slice())?;
        rest = behind;
    }
    Ok(())
}

/// Adds the unexpected outcomes at these places, in this order.
fn add_unexpected(
    alloc: Global,
    text: &mut Vec<u8>,
    reached: &Reached<Explorer<'_>>,
    outcomes: &[Outcome],
    order: &[usize],
    flags: &[bool],
) -> Result<(), AllocError>
    ensures { OnOk result (HasWritten reached.now.system.setting reached.now
        (unexpected_pieces outcomes.now flags.now 0 order.now) text.old.items text.new.items) }
{
    let mut number = 0;
    let mut rest = order;
    while let [place, behind @ ..] = rest {
        add_unexpected_at(alloc, text, reached, outcomes, flags, *place, number)?;
        number += 1;
        rest = behind;
    }
    Ok(())
}

/// Adds the outcome at a place, with its number in the listing, if it is unexpected.
fn add_unexpected_at(
    alloc: Global,
    text: &mut Vec<u8>,
    reached: &Reached<Explorer<'_>>,
    outcomes: &[Outcome],
    flags: &[bool],
    place: usize,
    number: usize,
) -> Result<(), AllocError>
    ensures { OnOk result (HasWritten reached.now.system.setting reached.now
        (if slice_index_or flags.now place false then shown_at number (slice_get outcomes.now place) else [])
        text.old.items text.new.items) }
{
    if !is_set(flags, place) {
        return Ok(());
    }
    add_shown_at(alloc, text, reached, outcomes.get(place).copied(), number)
}

/// Whether the flag at a place is set.
fn is_set(flags: &[bool], place: usize) -> bool
    ensures { result ≡ slice_index_or flags.now place false }
{
    match flags.get(place) {
        Some(flag) => *flag,
        None => false,
    }
}

/// Adds an unexpected outcome with its number in the listing, if there is one.
fn add_shown_at(
    alloc: Global,
    text: &mut Vec<u8>,
    reached: &Reached<Explorer<'_>>,
    outcome: Option<Outcome>,
    number: usize,
) -> Result<(), AllocError>
    ensures { OnOk result (HasWritten reached.now.system.setting reached.now
        (shown_at number outcome) text.old.items text.new.items) }
{
    match outcome {
        Some(outcome) => add_shown(alloc, text, reached, outcome, number),
        None => Ok(()),
    }
}

/// Adds an unexpected outcome with its number in the listing.
fn add_shown(
    alloc: Global,
    text: &mut Vec<u8>,
    reached: &Reached<Explorer<'_>>,
    outcome: Outcome,
    number: usize,
) -> Result<(), AllocError>
    ensures { OnOk result (HasWritten reached.now.system.setting reached.now
        (shown_at number (Some outcome)) text.old.items text.new.items) }
{
    text.extend_from_slice(b"unexpected:\n")?;
    add_outcome(alloc, text, reached, outcome, number as u64)?;
    Ok(())
}
