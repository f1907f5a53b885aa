//! Judges conditions, and writes what a verdict says of them.
ghost use Rattle.std.specs.Prelude.{◌≡◌, ◌++◌, [], IfOk, OnOk, if◌then◌else◌};
ghost use Rattle.explore_report.specs.OutcomeTexts.{printed_order};
ghost use Rattle.explore_verdict.specs.Conditions.{all_hold, condition_line, condition_pieces, conditions_pieces, count_text, example_at, example_from, example_pieces, holds, is_example, matches, matching};
ghost use Rattle.explore_verdict.specs.Pieces.{HasWritten};

use crate::condition::Condition;
use crate::matching::is_match;
use crate::pattern::Pattern;
use crate::unseen::{add_unseen, unseen_in};
use explore_interleavings::Explorer;
use explore_report::{Outcome, add_outcome};
use states_reach::{Reached, System};
use std::alloc::{AllocError, Global};
use text_words::add_decimal;

/// An outcome that shows that a condition doesn't hold.
#[derive(Clone, Copy)]
pub(crate) struct Example {
    /// The number of the outcome in the listing, counted from 0.
    number: usize,
    outcome: Outcome,
}

/// Adds what a verdict says of conditions. `order` has the places of the outcomes in the order of the listing. Returns
/// whether each condition holds.
pub(crate) fn add_conditions(
    alloc: Global,
    text: &mut Vec<u8>,
    reached: &Reached<Explorer<'_>>,
    outcomes: &[Outcome],
    order: &[usize],
    conditions: &[Condition],
) -> Result<bool, AllocError>
    requires { order.now ≡ printed_order reached.now.system.states outcomes.now }
    ensures hold { IfOk result (λ hold. hold ≡ all_hold reached.now.system.states outcomes.now conditions.now) }
    ensures written { OnOk result (HasWritten reached.now.system.setting reached.now
        (conditions_pieces reached.now.system.states outcomes.now conditions.now) text.old.items text.new.items) }
{
    let mut hold = true;
    let mut rest = conditions;
    while let [condition, behind @ ..] = rest {
        hold &= add_condition(alloc, text, reached, outcomes, order, condition)?;
        rest = behind;
    }
    Ok(hold)
}

/// Adds what a verdict says of a condition. Returns whether it holds.
fn add_condition(
    alloc: Global,
    text: &mut Vec<u8>,
    reached: &Reached<Explorer<'_>>,
    outcomes: &[Outcome],
    order: &[usize],
    condition: &Condition,
) -> Result<bool, AllocError>
    requires { order.now ≡ printed_order reached.now.system.states outcomes.now }
    ensures holds { IfOk result (λ is. is ≡ holds reached.now.system.states outcomes.now condition.now) }
    ensures written { OnOk result (HasWritten reached.now.system.setting reached.now
        (condition_pieces reached.now.system.states outcomes.now condition.now) text.old.items text.new.items) }
{
    let count = matching(alloc, &reached.system, outcomes, &condition.pattern)?;
    add_line(alloc, text, &reached.system, outcomes, condition, count)?;
    let holds = condition.demand.is_met(count, outcomes.len());
    add_example(alloc, text, reached, outcomes, order, condition, holds)?;
    Ok(holds)
}

/// Adds the line of a condition that so many outcomes match.
fn add_line(
    alloc: Global,
    text: &mut Vec<u8>,
    states: &Explorer<'_>,
    outcomes: &[Outcome],
    condition: &Condition,
    count: usize,
) -> Result<(), AllocError>
    ensures { count ≡ matching states.now.states outcomes.now condition.now.pattern → OnOk result
        (text.new.items ≡ text.old.items ++ condition_line states.now.states outcomes.now condition.now) }
{
    add_count(text, condition, count, outcomes.len())?;
    let unseen = unseen_in(alloc, states, outcomes, condition.pattern.clauses())?;
    add_unseen(text, unseen)?;
    text.push(b'\n')?;
    Ok(())
}

/// Adds how many outcomes match a condition.
fn add_count(
    text: &mut Vec<u8>,
    condition: &Condition,
    matching: usize,
    all: usize,
) -> Result<(), AllocError>
    ensures { OnOk result (text.new.items ≡ text.old.items ++ count_text condition.now matching all) }
{
    text.extend_from_slice(condition.demand.word())?;
    text.push(b' ')?;
    add_decimal(text, u64::from(condition.number))?;
    text.extend_from_slice(b": ")?;
    add_decimal(text, matching as u64)?;
    text.extend_from_slice(b" of ")?;
    add_decimal(text, all as u64)?;
    text.extend_from_slice(b" outcomes")
}

/// The number of outcomes that match a pattern.
fn matching(
    alloc: Global,
    states: &Explorer<'_>,
    outcomes: &[Outcome],
    pattern: &Pattern,
) -> Result<usize, AllocError>
    ensures { IfOk result (λ count. count ≡ matching states.now.states outcomes.now pattern.now) }
{
    let mut count = 0;
    let mut rest = outcomes;
    while let [outcome, behind @ ..] = rest {
        if matches(alloc, states, *outcome, pattern)? {
            count += 1;
        }
        rest = behind;
    }
    Ok(count)
}

/// Whether an outcome matches a pattern.
fn matches(
    alloc: Global,
    states: &Explorer<'_>,
    outcome: Outcome,
    pattern: &Pattern,
) -> Result<bool, AllocError>
    ensures { IfOk result (λ is. is ≡ matches states.now.states pattern.now outcome) }
{
    match states.at(outcome.place) {
        Some(state) => is_match(alloc, state.told(), pattern),
        None => is_match(alloc, &[], pattern),
    }
}

/// Adds the first outcome that shows that a condition doesn't hold, if there is one. Adds nothing if it holds.
fn add_example(
    alloc: Global,
    text: &mut Vec<u8>,
    reached: &Reached<Explorer<'_>>,
    outcomes: &[Outcome],
    order: &[usize],
    condition: &Condition,
    holds: bool,
) -> Result<(), AllocError>
    ensures { OnOk result (HasWritten reached.now.system.setting reached.now
        (if holds then [] else example_pieces (example_from reached.now.system.states outcomes.now condition.now 0 order.now))
        text.old.items text.new.items) }
{
    if holds {
        return Ok(());
    }
    let example = first_example(alloc, &reached.system, outcomes, order, condition)?;
    add_shown(alloc, text, reached, example)
}

/// Adds an example, if there is one.
fn add_shown(
    alloc: Global,
    text: &mut Vec<u8>,
    reached: &Reached<Explorer<'_>>,
    example: Option<Example>,
) -> Result<(), AllocError>
    ensures { OnOk result (HasWritten reached.now.system.setting reached.now
        (example_pieces example) text.old.items text.new.items) }
{
    match example {
        Some(example) => add_outcome(alloc, text, reached, example.outcome, example.number as u64),
        None => Ok(()),
    }
}

/// Returns the first of the outcomes at these places that shows that a condition doesn't hold. Returns `None` if there
/// is no such outcome.
fn first_example(
    alloc: Global,
    states: &Explorer<'_>,
    outcomes: &[Outcome],
    order: &[usize],
    condition: &Condition,
) -> Result<Option<Example>, AllocError>
    ensures { IfOk result
        (λ example. example ≡ example_from states.now.states outcomes.now condition.now 0 order.now) }
{
    let mut number = 0;
    let mut rest = order;
    while let [place, behind @ ..] = rest {
        let outcome = outcomes.get(*place).copied();
        if let Some(example) = example_at(alloc, states, condition, number, outcome)? {
            return Ok(Some(example));
        }
        number += 1;
        rest = behind;
    }
    Ok(None)
}

/// Returns this outcome with this number if it shows that a condition doesn't hold. Returns `None` otherwise.
fn example_at(
    alloc: Global,
    states: &Explorer<'_>,
    condition: &Condition,
    number: usize,
    outcome: Option<Outcome>,
) -> Result<Option<Example>, AllocError>
    ensures { IfOk result (λ example. example ≡ example_at states.now.states condition.now number outcome) }
{
    let Some(outcome) = outcome else {
        return Ok(None);
    };
    if is_example(alloc, states, condition, outcome)? {
        Ok(Some(Example { number, outcome }))
    } else {
        Ok(None)
    }
}

/// Whether an outcome shows that a condition doesn't hold.
fn is_example(
    alloc: Global,
    states: &Explorer<'_>,
    condition: &Condition,
    outcome: Outcome,
) -> Result<bool, AllocError>
    ensures { IfOk result (λ is. is ≡ is_example states.now.states condition.now outcome) }
{
    let is_match = matches(alloc, states, outcome, &condition.pattern)?;
    Ok(condition.demand.is_example(is_match))
}
